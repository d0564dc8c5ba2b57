//! The left side of a step: what the rule of types looks at, the place that it names, and the signal.

ghost use Rattle.std.specs.Prelude.{◌≡◌, ◌&&◌, IfOk, None as Nothing};
ghost use Rattle.typing_rules.specs.Answers.{Answers};
ghost use Rattle.typing_rules.specs.Assignments as assignments;
ghost use Rattle.typing_rules.specs.Posts as posts;
ghost use Rattle.typing_rules.specs.Types as types;
ghost use Rattle.typing_rules.specs.declared.head.Head.TheVariants as h;
ghost use Rattle.vera_steps.specs.SideLists as spec;

use crate::targets::{Target, target_of};
use four_state::NoMemory;
use std::alloc::Global;
use typing_rules::head::{Head, Right, Stand, Whole};
use vera_ast::{FrontError, Postfix, TypedPlace, ValueType, VectorType};
use vera_exprs::expressions::walk_post;
use vera_names::fitting::{fits, is_vector};
use vera_values::heads::{
    cut_type, is_event, number_type, part_place, place, signal_type, whole_type,
};
use vera_values::sight::Sight;

/// What the rule of types looks at on a left side.
#[derive(Clone, Copy)]
pub enum Left {
    /// A value of this type.
    Of(ValueType),
    /// A name that is no value, which has no type: it is refused as what can't be assigned.
    NoValue,
    /// What is refused for its type: an array, a built-in name or a mode word.
    Wrong,
}

/// A left side.
#[derive(Drop)]
pub struct Side {
    pub left: Left,
    /// The place that it names: a variable, field or element that is no event, or bits of it.
    pub place: Option<TypedPlace>,
    /// The whole signal that it names.
    pub target: Option<Target>,
}

/// What the rule of types looks at on a left side.
fn left_of(head: &Head) -> Left
    ensures { result ≡ spec.left_of head.now }
{
    match head {
        Head::Number(number) => Left::Of(ValueType::Vector(number_type(number))),
        Head::Str(_) => Left::Of(ValueType::Str),
        Head::Value(value) => Left::Of(value.of),
        Head::Whole(whole) => Left::Of(whole_type(whole)),
        Head::Part(_, cut) | Head::SignalPart(_, _, cut) => {
            Left::Of(ValueType::Vector(cut_type(cut)))
        }
        Head::Signal(signal, _) => Left::Of(signal_type(*signal)),
        Head::Named(_) => Left::NoValue,
        _ => Left::Wrong,
    }
}

/// The type of a right side.
fn right_type(right: &Right) -> ValueType
    ensures { result ≡ assignments.right_type right.now }
{
    match right {
        Right::Value(value) => value.of,
        Right::Waits(_) => ValueType::Vector(VectorType::Integer),
    }
}

/// Whether a right side fits a variable of a type.
pub fn right_fits(parents: &[Option<u32>], right: &Right, target: ValueType) -> bool
    ensures { result ≡ assignments.right_fits parents.now right.now target }
{
    fits(parents, right_type(right), target)
}

/// Whether the right side fits the left one.
pub fn left_fits(parents: &[Option<u32>], right: &Right, left: Left) -> bool
    ensures { result ≡ spec.passes (assignments.right_fits parents.now right.now) left }
{
    match left {
        Left::Of(of) => right_fits(parents, right, of),
        Left::NoValue => true,
        Left::Wrong => false,
    }
}

fn is_plain_vector(of: ValueType) -> bool
    ensures { result ≡ posts.is_plain_vector of }
{
    matches!(of, ValueType::Vector(_))
}

/// Whether the left side is a vector, which can be counted up and down.
pub fn left_counts(left: Left) -> bool
    ensures { result ≡ spec.passes posts.is_plain_vector left }
{
    match left {
        Left::Of(of) => is_plain_vector(of),
        Left::NoValue => true,
        Left::Wrong => false,
    }
}

/// Whether both sides of `+=` or `-=` are vectors.
pub fn adds(left: Left, of: ValueType) -> bool
    ensures { result ≡ (spec.passes posts.is_plain_vector left && types.is_vector of) }
{
    left_counts(left) && is_vector(of)
}

/// A variable, field or element that is no event.
fn whole_place(whole: Whole) -> Option<TypedPlace>
    ensures { result ≡ assignments.left_place (h.Whole whole) }
{
    if is_event(whole_type(&whole)) {
        drop(whole);
        return None;
    }
    Some(place(whole))
}

/// What is no place is let go.
fn no_place(head: Head) -> Option<TypedPlace>
    ensures { result ≡ Nothing }
{
    drop(head);
    None
}

/// The place that a left side names: a variable, field or element that is no event, or bits of it.
fn left_place(alloc: Global, head: Head) -> Result<Option<TypedPlace>, NoMemory>
    ensures { IfOk result (λ found. found ≡ assignments.left_place head) }
{
    match head {
        Head::Whole(whole) => Ok(whole_place(whole)),
        Head::Part(whole, cut) => Ok(Some(part_place(alloc, whole, cut)?)),
        head => Ok(no_place(head)),
    }
}

/// What a left side is.
fn side_of(alloc: Global, head: Head) -> Result<Side, NoMemory>
    ensures { IfOk result (λ side. side ≡ spec.side_of head) }
{
    let left = left_of(&head);
    let target = target_of(&head);
    let place = left_place(alloc, head)?;
    Ok(Side {
        left,
        place,
        target,
    })
}

/// The left side that a `post` is.
#[tactic(auto, unfolding(vera_names::proofs::StepsOpened::rules, crate::specs::SideLists::walk_side))]
pub fn walk_side(alloc: Global, sight: &Sight<'_>, post: &Postfix) -> Result<Side, FrontError>
    ensures { Answers (spec.walk_side sight.now post.now) result }
{
    let head = walk_post(alloc, sight, Stand::Place, post)?;
    Ok(side_of(alloc, head)?)
}
