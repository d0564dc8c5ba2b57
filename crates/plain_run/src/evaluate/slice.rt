ghost use Rattle.std.specs.Prelude.{IfOk};
ghost use Rattle.slice_core.specs.Walks.{walked};
ghost use Rattle.vera_meaning.specs.Rests.{Here};
ghost use Rattle.vera_meaning.specs.Slices.{slice_of};
ghost use Rattle.plain_run.specs.Logs.{told};
ghost use Rattle.plain_run.specs.SliceEnds.{EndsSo};
ghost use Rattle.plain_run.specs.Values.{contents_of};
ghost use Rattle.plain_run.specs.Work.{agenda_of};

use super::log::Log;
use super::stmt::{Taken, take};
use super::values::Values;
use super::work::{Work, next_timed};
use four_state::NoMemory;
use std::alloc::Global;

/// How a slice ended.
#[derive(Clone, Copy, PartialEq, Eq)]
pub enum SliceEnd {
    /// The thread came to its end.
    Ended,
    /// It would have taken a tick above its budget.
    Spent,
    /// It waits for one edge.
    Waits,
}

/// Runs a slice of a thread in this cycle, with a budget of ticks: what is still to do of it is taken off the agenda.
pub fn run_slice<'a>(
    alloc: Global,
    agenda: &mut Vec<Work<'a>>,
    cycle: u64,
    budget: u64,
    values: &mut Values,
    log: &mut Log,
) -> Result<SliceEnd, NoMemory>
    ensures { IfOk result (λ end. EndsSo end (told log.old) (told log.new) (contents_of values.new) (agenda_of agenda.new.items)
        (walked (slice_of (record { thread = 1; cycle = cycle }) (record { agenda = agenda_of agenda.old.items }) budget) (contents_of values.old))) }
{
    let mut ticks = budget;
    loop {
        let found = next_timed(agenda)?;
        match found {
            None => return Ok(SliceEnd::Ended),
            Some(timed) => {
                if ticks == 0 {
                    return Ok(SliceEnd::Spent);
                }
                ticks -= 1;
                match take(alloc, timed, agenda, cycle, values, log)? {
                    Taken::GoesOn => {}
                    Taken::Waits => return Ok(SliceEnd::Waits),
                }
            }
        }
    }
}
