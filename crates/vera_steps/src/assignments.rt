//! Steps and declared values: what may be assigned, and what a signal's name makes of an assignment.

ghost use Rattle.std.specs.Prelude.{◌≡◌};
ghost use Rattle.vera_ast.specs.declared.typed.stmt.TypedChange.TheVariants as made;
ghost use Rattle.typing_rules.specs.Answers.{Answers};
ghost use Rattle.typing_rules.specs.Assignments as spec;
ghost use Rattle.vera_steps.specs.SideLists as sides;
ghost use Rattle.vera_steps.specs.SimpleForms as lists;

use crate::drives::drive;
use crate::sides::{Side, adds, left_counts, left_fits, right_fits, walk_side};
use crate::targets::Target;
use std::alloc::Global;
use typing_rules::head::{Head, Right, Stand, Typed};
use vera_ast::{
    Change, DriveOperator, Expr, FrontError, InitialValue, Step, TypedChange, TypedPlace,
    TypedStep, TypedStmt, ValueType, VariableType, with,
};
use vera_exprs::expressions::{expr, walk};
use vera_names::codes::{NOT_ASSIGNABLE, WRONG_TYPE, refuse, refused};
use vera_names::rules::{answered, keeps};
use vera_values::heads::is_event;
use vera_values::sight::Sight;
use vera_values::values::value_of;

/// The whole right side of an assignment, once it was walked: a value, or a call that may wait.
#[tactic(auto, unfolding(vera_names::proofs::StepsOpened::rules))]
fn taken(alloc: Global, stmt_line: u32, line: u32, head: Head) -> Result<Right, FrontError>
    ensures { Answers (spec.taken stmt_line line head) result }
{
    match head {
        Head::Waits(call) => Ok(Right::Waits(call)),
        Head::New => Err(refused(WRONG_TYPE, stmt_line)),
        head => Ok(Right::Value(value_of(alloc, line, head)?)),
    }
}

/// The whole right side of an assignment of the statement or variable of a line.
#[tactic(auto, unfolding(vera_names::proofs::StepsOpened::rules, typing_rules::specs::Assignments::right_side))]
fn right_side(
    alloc: Global,
    sight: &Sight<'_>,
    line: u32,
    value: &Expr,
) -> Result<Right, FrontError>
    ensures { Answers (spec.right_side sight.now line value.now) result }
{
    let value_line = value.line();
    let head = walk(alloc, sight, Stand::Assigned, value)?;
    taken(alloc, line, value_line, head)
}

fn assigning(right: Right) -> TypedChange
    ensures { result ≡ spec.assigning right }
{
    match right {
        Right::Value(value) => TypedChange::Assign(value.expr),
        Right::Waits(call) => TypedChange::Wait(call),
    }
}

/// A change of a place, where there is one.
#[tactic(auto, unfolding(vera_names::proofs::StepsOpened::rules))]
fn placed(
    line: u32,
    place: Option<TypedPlace>,
    change: TypedChange,
) -> Result<TypedStmt, FrontError>
    ensures { Answers (sides.placed line place change) result }
{
    match place {
        Some(target) => Ok(TypedStmt::Step(TypedStep {
            line,
            target,
            change,
        })),
        None => refuse(change, NOT_ASSIGNABLE, line),
    }
}

/// An assignment of a right side.
#[tactic(auto, unfolding(vera_names::proofs::StepsOpened::rules, crate::specs::SideLists::assign_right))]
fn assign_right(
    parents: &[Option<u32>],
    line: u32,
    side: Side,
    right: Right,
) -> Result<TypedStmt, FrontError>
    ensures { Answers (sides.assign_right parents.now line side right) result }
{
    let is_wrong = !left_fits(parents, &right, side.left);
    let kept = answered(keeps(line, &[(WRONG_TYPE, is_wrong)]));
    let ((place, right), ()) = with((side.place, right), kept)?;
    placed(line, place, assigning(right))
}

/// An assignment to what is no signal.
#[tactic(auto, unfolding(vera_names::proofs::StepsOpened::rules, crate::specs::SideLists::assign_value))]
fn assign_value(
    alloc: Global,
    sight: &Sight<'_>,
    line: u32,
    side: Side,
    value: &Expr,
) -> Result<TypedStmt, FrontError>
    ensures { Answers (sides.assign_value sight.now line side value.now) result }
{
    let (side, right) = with(side, right_side(alloc, sight, line, value))?;
    assign_right(sight.outline().classes(), line, side, right)
}

/// An assignment to a signal: a drive.
#[tactic(auto, unfolding(vera_names::proofs::StepsOpened::rules, crate::specs::SideLists::assign_signal))]
fn assign_signal(
    alloc: Global,
    sight: &Sight<'_>,
    line: u32,
    target: Target,
    value: &Expr,
) -> Result<TypedStmt, FrontError>
    ensures { Answers (sides.assign_signal sight.now line target value.now) result }
{
    let value = expr(alloc, sight, value)?;
    drive(
        sight,
        line,
        None,
        target.signal,
        target.direction,
        DriveOperator::Assign,
        value,
    )
}

/// An assignment, or a drive where the left side names a signal.
fn assign(
    alloc: Global,
    sight: &Sight<'_>,
    line: u32,
    side: Side,
    value: &Expr,
) -> Result<TypedStmt, FrontError>
    ensures { Answers (sides.assign_to sight.now line side value.now) result }
{
    match side.target {
        Some(target) => {
            drop(side);
            assign_signal(alloc, sight, line, target, value)
        }
        None => assign_value(alloc, sight, line, side, value),
    }
}

/// A change by a value of a type: vectors alone.
#[tactic(auto, unfolding(vera_names::proofs::StepsOpened::rules, crate::specs::SideLists::added))]
fn added(line: u32, side: Side, of: ValueType, change: TypedChange) -> Result<TypedStmt, FrontError>
    ensures { Answers (sides.added line side of change) result }
{
    let kept = answered(keeps(line, &[(WRONG_TYPE, !adds(side.left, of))]));
    let ((place, change), ()) = with((side.place, change), kept)?;
    placed(line, place, change)
}

/// `+=`: vectors alone.
#[tactic(auto, unfolding(vera_names::proofs::StepsOpened::rules, crate::specs::SideLists::add_to))]
fn add(
    alloc: Global,
    sight: &Sight<'_>,
    line: u32,
    side: Side,
    value: &Expr,
) -> Result<TypedStmt, FrontError>
    ensures { Answers (sides.add_to sight.now line side made.Add value.now) result }
{
    let (side, Typed { expr: read, of }) = with(side, expr(alloc, sight, value))?;
    added(line, side, of, TypedChange::Add(read))
}

/// `-=`: vectors alone.
#[tactic(auto, unfolding(vera_names::proofs::StepsOpened::rules, crate::specs::SideLists::add_to))]
fn subtract(
    alloc: Global,
    sight: &Sight<'_>,
    line: u32,
    side: Side,
    value: &Expr,
) -> Result<TypedStmt, FrontError>
    ensures { Answers (sides.add_to sight.now line side made.Subtract value.now) result }
{
    let (side, Typed { expr: read, of }) = with(side, expr(alloc, sight, value))?;
    added(line, side, of, TypedChange::Subtract(read))
}

/// `++` and `--`: vectors alone.
#[tactic(auto, unfolding(vera_names::proofs::StepsOpened::rules, crate::specs::SideLists::count_at))]
fn count(line: u32, side: Side, change: TypedChange) -> Result<TypedStmt, FrontError>
    ensures { Answers (sides.count_at line side change) result }
{
    let kept = answered(keeps(line, &[(WRONG_TYPE, !left_counts(side.left))]));
    let ((place, change), ()) = with((side.place, change), kept)?;
    placed(line, place, change)
}

fn changed(
    alloc: Global,
    sight: &Sight<'_>,
    line: u32,
    side: Side,
    change: &Change,
) -> Result<TypedStmt, FrontError>
    ensures { Answers (sides.change_at sight.now line side change.now) result }
{
    match change {
        Change::Assign(value) => assign(alloc, sight, line, side, value),
        Change::Add(value) => add(alloc, sight, line, side, value),
        Change::Subtract(value) => subtract(alloc, sight, line, side, value),
        Change::Increment => count(line, side, TypedChange::Increment),
        Change::Decrement => count(line, side, TypedChange::Decrement),
    }
}

/// `step = post ( "=" | "+=" | "-=" ) expr | post ( "++" | "--" )`.
#[tactic(auto, using(crate::proofs::SideSteps::step_stops, crate::proofs::SideSteps::step_goes))]
pub fn step(alloc: Global, sight: &Sight<'_>, step: &Step) -> Result<TypedStmt, FrontError>
    ensures { Answers (spec.step sight.now step.now) result }
{
    let side = walk_side(alloc, sight, &step.target)?;
    changed(alloc, sight, step.line, side, &step.change)
}

fn fits_declared(parents: &[Option<u32>], right: &Right, of: VariableType) -> bool
    ensures { result ≡ spec.fits_declared parents.now right.now of }
{
    match of {
        VariableType::Value(of) => right_fits(parents, right, of),
        VariableType::Array(_, _) => false,
    }
}

fn is_event_variable(of: VariableType) -> bool
    ensures { result ≡ spec.is_event_variable of }
{
    match of {
        VariableType::Value(of) => is_event(of),
        VariableType::Array(_, _) => false,
    }
}

fn initial_value(right: Right) -> InitialValue
    ensures { result ≡ spec.initial_value right }
{
    match right {
        Right::Value(value) => InitialValue::Value(value.expr),
        Right::Waits(call) => InitialValue::Wait(call),
    }
}

/// The value of a variable of this type.
#[tactic(auto, unfolding(vera_names::proofs::StepsOpened::rules, crate::specs::SimpleForms::value_declared))]
fn value_declared(
    alloc: Global,
    sight: &Sight<'_>,
    line: u32,
    of: VariableType,
    value: &Expr,
) -> Result<InitialValue, FrontError>
    ensures { Answers (lists.value_declared sight.now line of value.now) result }
{
    let right = right_side(alloc, sight, line, value)?;
    let is_wrong = !fits_declared(sight.outline().classes(), &right, of);
    let kept = answered(keeps(
        line,
        &[
            (WRONG_TYPE, is_wrong),
            (NOT_ASSIGNABLE, is_event_variable(of)),
        ],
    ));
    let (right, ()) = with(right, kept)?;
    Ok(initial_value(right))
}

/// The value of a declared variable, where it has one.
#[tactic(auto, unfolding(vera_names::proofs::StepsOpened::rules, typing_rules::specs::Assignments::declared_value, crate::specs::SimpleForms::value_declared))]
pub fn declared_value(
    alloc: Global,
    sight: &Sight<'_>,
    line: u32,
    of: VariableType,
    value: &Option<Expr>,
) -> Result<Option<InitialValue>, FrontError>
    ensures { Answers (spec.declared_value sight.now line of value.now) result }
{
    match value {
        Some(value) => Ok(Some(value_declared(alloc, sight, line, of, value)?)),
        None => Ok(None),
    }
}
