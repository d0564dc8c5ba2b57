//! The rules of one part, and which of them it breaks.

ghost use Rattle.std.specs.Prelude.{◌≡◌};
ghost use Rattle.typing_rules.specs.Answers as answers;
ghost use Rattle.typing_rules.specs.Checked as spec;

use vera_ast::{FrontError, Refusal};

/// The rules of the part that begins on a line, in the order of their numbers, each with whether it is broken: the
/// first broken one counts.
#[tactic(auto, unfolding(typing_rules::specs::Checked::keeps, typing_rules::specs::Checked::refuse))]
pub fn keeps(line: u32, rules: &[(u8, bool)]) -> Result<(), Refusal>
    ensures { result ≡ spec.keeps line rules.now }
{
    for (code, is_broken) in rules {
        if *is_broken {
            return Err(Refusal { code: *code, line });
        }
    }
    Ok(())
}

/// The result or the refusal of a part that asks for no memory.
pub fn answered<T>(told: Result<T, Refusal>) -> Result<T, FrontError>
    ensures same { result ≡ answers.answered told }
    ensures tells { answers.Answers told result }
{
    match told {
        Ok(value) => Ok(value),
        Err(refusal) => Err(FrontError::Refused(refusal)),
    }
}
