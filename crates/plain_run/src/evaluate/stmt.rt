ghost use Rattle.std.specs.Prelude.{◌≡◌, OnOk, IfOk, ◌∷◌, ◌++◌, suc, ℕ, List};
ghost use Rattle.slice_core.specs.Walks.{End};
ghost use Rattle.vera_meaning.specs.Rests.{Here, Item, Do, Rest};
ghost use Rattle.vera_meaning.specs.Formats.{formatted};
ghost use Rattle.vera_ast.specs.declared.typed.stmt.TypedStmt.TheVariants as stmts;
ghost use Rattle.vera_ast.specs.declared.typed.place.TypedPlace.TheVariants as places;
ghost use Rattle.vera_ast.specs.declared.typed.stmt.TypedChange.TheVariants as changes;
ghost use Rattle.plain_run.specs.Gives.{Changes};
ghost use Rattle.plain_run.specs.Going.{IsAt};
ghost use Rattle.plain_run.specs.Logs.{Told, told};
ghost use Rattle.plain_run.specs.Taking.{TakenSo};
ghost use Rattle.plain_run.specs.Values.{contents_of};
ghost use Rattle.plain_run.specs.Work.{agenda_of, timed_item};

use super::log::Log;
use super::values::Values;
use super::work::{Timed, Work};
use super::{expr, print};
use four_state::NoMemory;
use run_rules::Drive;
use std::alloc::Global;
use vera_ast::{
    TypedChange, TypedDrive, TypedExpr, TypedPlace, TypedPrintf, TypedStep, TypedVariable,
    ValueType, VectorType,
};

/// Whether a slice goes on behind something that was done, or its thread waits for an edge.
#[derive(Clone, Copy, PartialEq, Eq)]
pub enum Taken {
    GoesOn,
    Waits,
}

/// Does something whose tick was taken.
pub fn take<'a>(
    alloc: Global,
    timed: Timed<'a>,
    agenda: &mut Vec<Work<'a>>,
    cycle: u64,
    values: &mut Values,
    log: &mut Log,
) -> Result<Taken, NoMemory>
    ensures { IfOk result (λ taken. TakenSo taken cycle (timed_item timed.entry ∷ agenda_of agenda.old.items) (agenda_of agenda.new.items)
        (told log.old) (told log.new) (contents_of values.old) (contents_of values.new)) }
{
    match timed {
        Timed::Step(step) => take_step(step, values)?,
        Timed::While(loop_) => {
            agenda.push(Work::Again(loop_))?;
        }
        Timed::Printf(printf) => take_printf(alloc, printf, values, &mut log.printed)?,
        Timed::Drive(drive) => take_drive(drive, cycle, values, &mut log.due)?,
        Timed::Edge(_) => return Ok(Taken::Waits),
        Timed::Test(loop_) => {
            if expr::holds(&loop_.condition, values) {
                agenda.push(Work::Again(loop_))?;
                agenda.push(Work::Do(loop_.body.get()))?;
            }
        }
    }
    Ok(Taken::GoesOn)
}

/// A place is changed.
fn take_step(step: &TypedStep, values: &mut Values) -> Result<(), NoMemory>
    ensures { OnOk result ((here : Here) (goal : End Rest) (start log : Told) (rest : List Item) (ticks : ℕ)
        → IsAt here goal start log (Do (stmts.Step step.now) ∷ rest) (suc ticks) (contents_of values.old)
        → IsAt here goal start log rest ticks (contents_of values.new)) }
{
    change(&step.target, &step.change, values)?;
    Ok(())
}

/// Changes a place. Other changes than an assignment to a variable aren't built: nothing is changed.
fn change(target: &TypedPlace, change: &TypedChange, values: &mut Values) -> Result<(), NoMemory>
    ensures { OnOk result (Changes target.now change.now (contents_of values.old) (contents_of values.new)) }
{
    match target {
        TypedPlace::Variable(variable) => match change {
            TypedChange::Assign(value) => assign(variable, value, values)?,
            _ => {}
        },
        _ => {}
    }
    Ok(())
}

/// A variable takes a value.
fn assign(
    variable: &TypedVariable,
    assigned: &TypedExpr,
    values: &mut Values,
) -> Result<(), NoMemory>
    ensures { OnOk result (Changes (places.Variable variable.now) (changes.Assign assigned.now) (contents_of values.old) (contents_of values.new)) }
{
    let value = expr::value(assigned, values);
    values.set_variable(variable.place, value.fitted(variable.of))?;
    Ok(())
}

/// Prints.
fn take_printf(
    alloc: Global,
    printf: &TypedPrintf,
    values: &Values,
    printed: &mut Vec<u8>,
) -> Result<(), NoMemory>
    ensures { OnOk result ((here : Here) (goal : End Rest) (start log : Told) (rest : List Item) (ticks : ℕ)
        → log.printed ≡ printed.old.items
        → IsAt here goal start log (Do (stmts.Printf printf.now) ∷ rest) (suc ticks) (contents_of values.now)
        → IsAt here goal start (record log { printed = printed.new.items }) rest ticks (contents_of values.now)) }
{
    let arguments = print::values(alloc, printf.arguments.as_slice(), values)?;
    print::write_format(
        alloc,
        printf.format.as_slice(),
        arguments.as_slice(),
        printed,
    )?;
    Ok(())
}

/// A drive is due in the present cycle. One with a delay isn't built: it is never due.
fn take_drive(
    drive: &TypedDrive,
    cycle: u64,
    values: &Values,
    due: &mut Vec<Drive>,
) -> Result<(), NoMemory>
    ensures { OnOk result ((goal : End Rest) (start log : Told) (rest : List Item) (ticks : ℕ)
        → log.due ≡ due.old.items
        → IsAt (record { thread = 1; cycle = cycle }) goal start log (Do (stmts.Drive drive.now) ∷ rest) (suc ticks) (contents_of values.now)
        → IsAt (record { thread = 1; cycle = cycle }) goal start (record log { due = due.new.items }) rest ticks (contents_of values.now)) }
{
    match &drive.delay {
        Some(_) => Ok(()),
        None => {
            let value = expr::value(&drive.value, values);
            due.push(Drive {
                cycle,
                signal: drive.target.number,
                bits: value.fitted(ValueType::Vector(VectorType::Bits(drive.target.width))),
            })?;
            Ok(())
        }
    }
}
