//! Carrying a finished part along while the next one is read or checked.

ghost use Rattle.std.specs.Prelude.{◌≡◌, Ok, Err, IfOk, IfErr};

/// Both parts, or the second one's error.
///
/// A `?` lets go of every tree that its function holds, which costs its proof more than all else that it does. Here
/// that stands once, for any part.
pub fn with<A: Drop, B, E>(first: A, second: Result<B, E>) -> Result<(A, B), E>
    ensures first { IfOk result (λ both. both.0 ≡ first) }
    ensures second { IfOk result (λ both. second ≡ Ok both.1) }
    ensures refused { IfErr result (λ error. second ≡ Err error) }
{
    match second {
        Ok(second) => Ok((first, second)),
        Err(error) => Err(error),
    }
}
