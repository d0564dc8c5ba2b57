//! Drives of signals, and their delays.

ghost use Rattle.std.specs.Prelude.{◌≡◌, ◌||◌, not, false};
ghost use Rattle.typing_rules.specs.Answers.{Answers};
ghost use Rattle.typing_rules.specs.Posts as posts;
ghost use Rattle.typing_rules.specs.Checked as checked;
ghost use Rattle.typing_rules.specs.Drives as spec;
ghost use Rattle.vera_steps.specs.TargetLists as targets;
ghost use Rattle.typing_rules.specs.Types as types;

use crate::targets::{Target, walk_target};
use std::alloc::Global;
use typing_rules::head::{Head, Typed};
use vera_ast::{
    Delay, DelayForm, Direction, Drive, DriveOperator, FrontError, TypedDrive, TypedSignalName,
    TypedStmt, with,
};
use vera_calls::calls::is_function;
use vera_exprs::expressions::expr;
use vera_names::codes::{NOT_HERE, WRONG_SIGNAL, WRONG_TYPE, refuse};
use vera_names::fitting::is_vector;
use vera_names::rules::{answered, keeps};
use vera_values::heads::{expr_or_missing, is_output, number};
use vera_values::posts::name;
use vera_values::sight::Sight;
use vera_values::values::value_of;

fn is_wrong_delay(delay: &Option<Typed>) -> bool
    ensures { result ≡ spec.is_wrong_delay delay.now }
{
    match delay {
        Some(delay) => !is_vector(delay.of),
        None => false,
    }
}

/// Whether the delay or the value of a drive is no vector.
fn is_wrong_drive(delay: &Option<Typed>, value: &Typed) -> bool
    ensures { result ≡ (spec.is_wrong_delay delay.now || not (types.is_vector value.now.of)) }
{
    is_wrong_delay(delay) || !is_vector(value.of)
}

/// A drive of a signal.
#[tactic(auto, unfolding(vera_names::proofs::StepsOpened::rules, typing_rules::specs::Drives::drive))]
pub fn drive(
    sight: &Sight<'_>,
    line: u32,
    delay: Option<Typed>,
    signal: TypedSignalName,
    direction: Direction,
    operator: DriveOperator,
    value: Typed,
) -> Result<TypedStmt, FrontError>
    ensures { Answers (spec.drive sight.now line delay signal direction operator value) result }
{
    let kept = answered(keeps(
        line,
        &[
            (WRONG_TYPE, is_wrong_drive(&delay, &value)),
            (NOT_HERE, is_function(sight.body())),
            (WRONG_SIGNAL, !is_output(direction)),
        ],
    ));
    let ((delay, value), ()) = with((delay, value), kept)?;
    Ok(TypedStmt::Drive(TypedDrive {
        line,
        delay: expr_or_missing(delay),
        target: signal,
        operator,
        value: value.expr,
    }))
}

/// What a name stands for.
fn named(sight: &Sight<'_>, line: u32, word: &[u8]) -> Result<Head, FrontError>
    ensures { Answers (posts.name sight.now false line word.now) result }
{
    name(sight, false, line, word)
}

/// `delay = number | name | "(" expr ")"`.
#[tactic(auto, unfolding(vera_names::proofs::StepsOpened::rules, typing_rules::specs::Drives::delay))]
pub fn delay(alloc: Global, sight: &Sight<'_>, delay: &Delay) -> Result<Typed, FrontError>
    ensures { Answers (spec.delay sight.now delay.now) result }
{
    match &delay.form {
        DelayForm::Number(literal) => Ok(number(literal)),
        DelayForm::Name(word) => {
            let head = named(sight, delay.line, word.as_slice())?;
            value_of(alloc, delay.line, head)
        }
        DelayForm::Parentheses(inner) => expr(alloc, sight, inner),
    }
}

/// A delay that may be missing.
#[tactic(auto, unfolding(vera_names::proofs::StepsOpened::rules))]
pub fn delay_or_missing(
    alloc: Global,
    sight: &Sight<'_>,
    time: &Option<Delay>,
) -> Result<Option<Typed>, FrontError>
    ensures { Answers (checked.perhaps (spec.delay sight.now) time.now) result }
{
    match time {
        Some(time) => Ok(Some(delay(alloc, sight, time)?)),
        None => Ok(None),
    }
}

/// A drive, once its parts were walked: of a whole signal alone.
#[tactic(auto, unfolding(vera_names::proofs::StepsOpened::rules))]
fn driven(
    sight: &Sight<'_>,
    stmt: &Drive,
    time: Option<Typed>,
    target: Option<Target>,
    value: Typed,
) -> Result<TypedStmt, FrontError>
    ensures { Answers (targets.driven sight.now stmt.now time target value) result }
{
    match target {
        Some(target) => drive(
            sight,
            stmt.line,
            time,
            target.signal,
            target.direction,
            stmt.operator,
            value,
        ),
        None => refuse((time, value), WRONG_TYPE, stmt.line),
    }
}

/// `[ "@" delay ] post ( "=" | "<=" ) expr ";"`.
#[tactic(auto, using(crate::proofs::TargetSteps::drive_delay_stops, crate::proofs::TargetSteps::drive_target_stops, crate::proofs::TargetSteps::drive_value_stops, crate::proofs::TargetSteps::drive_goes))]
pub fn drive_stmt(alloc: Global, sight: &Sight<'_>, stmt: &Drive) -> Result<TypedStmt, FrontError>
    ensures { Answers (spec.drive_stmt sight.now stmt.now) result }
{
    let time = delay_or_missing(alloc, sight, &stmt.delay)?;
    let (time, target) = with(time, walk_target(alloc, sight, &stmt.signal))?;
    let (time, value) = with(time, expr(alloc, sight, &stmt.value))?;
    driven(sight, stmt, time, target, value)
}
