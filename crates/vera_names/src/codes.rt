//! The numbers of the rules.

ghost use Rattle.std.specs.Prelude.{◌≡◌, Err};
ghost use Rattle.vera_ast.specs.declared.refusal.FrontError.TheVariants.{Refused};

use vera_ast::{FrontError, Refusal};

/// A name is unknown where it stands.
pub const UNKNOWN_NAME: u8 = 30;

/// A name is declared twice in one scope.
pub const DECLARED_TWICE: u8 = 31;

/// A type doesn't fit.
pub const WRONG_TYPE: u8 = 32;

/// The number of arguments is wrong.
pub const WRONG_COUNT: u8 = 33;

/// What is to be assigned can't be.
pub const NOT_ASSIGNABLE: u8 = 34;

/// It stands in a function, or a call that may wait stands elsewhere than allowed.
pub const NOT_HERE: u8 = 35;

/// There is no program, or a second one.
pub const NOT_ONE_PROGRAM: u8 = 36;

/// A signal is used against its direction or kind.
pub const WRONG_SIGNAL: u8 = 37;

/// A limit is passed.
pub const PAST_LIMIT: u8 = 39;

/// The refusal of the part that begins on a line.
pub fn refused(code: u8, line: u32) -> FrontError
    ensures { result ≡ Refused (record { code = code; line = line }) }
{
    FrontError::Refused(Refusal { code, line })
}

/// The refusal of what was typed so far, which is let go here: a function that lets a tree go pays for it in its proof.
pub fn refuse<T: Drop, U>(typed: T, code: u8, line: u32) -> Result<U, FrontError>
    ensures { result ≡ Err (Refused (record { code = code; line = line })) }
{
    drop(typed);
    Err(refused(code, line))
}
