//! The target of a drive or of a term: the whole signal that its left side names.

ghost use Rattle.std.specs.Prelude.{◌≡◌};
ghost use Rattle.typing_rules.specs.Answers.{Answers};
ghost use Rattle.vera_steps.specs.TargetLists as spec;

use std::alloc::Global;
use typing_rules::head::{Head, Stand};
use vera_ast::{Direction, FrontError, Postfix, TypedSignalName};
use vera_exprs::expressions::walk_post;
use vera_values::sight::Sight;

/// A whole signal.
#[derive(Clone, Copy)]
pub struct Target {
    pub signal: TypedSignalName,
    pub direction: Direction,
}

/// The whole signal that a head is.
pub fn target_of(head: &Head) -> Option<Target>
    ensures { result ≡ spec.target_of head.now }
{
    match head {
        Head::Signal(signal, direction) => Some(Target {
            signal: *signal,
            direction: *direction,
        }),
        _ => None,
    }
}

/// The whole signal that a `post` names, where it is one.
#[tactic(auto, unfolding(vera_names::proofs::StepsOpened::rules, crate::specs::TargetLists::walk_target))]
pub fn walk_target(
    alloc: Global,
    sight: &Sight<'_>,
    post: &Postfix,
) -> Result<Option<Target>, FrontError>
    ensures { Answers (spec.walk_target sight.now post.now) result }
{
    let head = walk_post(alloc, sight, Stand::Place, post)?;
    let target = target_of(&head);
    drop(head);
    Ok(target)
}
