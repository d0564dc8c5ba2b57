//! The cycles of a run: a slice, the drives of the cycle, and the edge.
ghost use Rattle.std.specs.Prelude.{◌≡◌, ◌<◌, ◌≤◌, ℕ, nat_lt, List, OnOk, IfOk, None};
ghost use Rattle.four_state.specs.declared.bit.Bit3.{Bit3};
ghost use Rattle.run_rules.specs.Designs.{Design, Settles};
ghost use Rattle.run_rules.specs.Drives.{Driven};
ghost use Rattle.run_rules.specs.Moves.{most_text};
ghost use Rattle.plain_run.specs.Applying.{SomeCanApply, AppliesAll, DrivesDone};
ghost use Rattle.plain_run.specs.Cycles.{told_size};
ghost use Rattle.plain_run.specs.Standing.{StandsAt, StandsSomewhere, CycleDone, state_of};

use crate::evaluate::log::Log;
use crate::evaluate::slice::{SliceEnd, run_slice};
use crate::evaluate::values::Values;
use crate::evaluate::work::Work;
use crate::outside::Outside;
use four_state::NoMemory;
use run_rules::{Drive, End, Limits};
use std::alloc::Global;

/// How many bytes a run may print, where each drive counts as 64.
const MOST_TEXT: usize = 67_108_864;

/// A run of one thread.
#[derive(Drop)]
pub struct Run<'a> {
    /// What is still to do of the thread.
    pub agenda: Vec<Work<'a>>,
    pub values: Values,
    pub log: Log,
    pub outside: Outside<'a>,
    /// The drives that were applied, in order.
    pub applied: Vec<Drive>,
    pub cycle: u64,
}

impl<'a> Run<'a> {
    /// One cycle: the thread's slice, the drives, and the edge to the next cycle, within these limits. The end, where
    /// the run has one by then.
    pub fn one_cycle(&mut self, alloc: Global, limits: Limits) -> Result<Option<End>, NoMemory>
        requires stands { StandsSomewhere self.old }
        requires within { self.old.cycle ≤ limits.cycles }
        requires turns { 0 < limits.turns }
        ensures done { IfOk result (λ end. (design : Design) (serial : ℕ) (driven : Driven) (held : List Bit3) → Settles design.netlist design.settle
            → StandsAt self.old design driven held → CycleDone end design limits (state_of self.old serial driven held) self.new) }
        ensures still { IfOk result (λ end. self.new.cycle ≤ limits.cycles) }
        ensures later { IfOk result (λ end. end ≡ None → self.old.cycle < self.new.cycle) }
    {
        let slice = run_slice(
            alloc,
            &mut self.agenda,
            self.cycle,
            limits.budget,
            &mut self.values,
            &mut self.log,
        )?;
        if let SliceEnd::Spent = slice {
            return Ok(Some(End::SpentSlice));
        }
        if is_too_much(&self.log.printed, &self.applied) {
            return Ok(Some(End::Fault(9, 0)));
        }
        self.apply_drives()?;
        if let SliceEnd::Ended = slice {
            return Ok(Some(End::Finished));
        }
        if self.cycle == limits.cycles {
            return Ok(Some(End::Limit));
        }
        self.outside.next_cycle(&mut self.values)?;
        self.cycle += 1;
        if is_too_much(&self.log.printed, &self.applied) {
            return Ok(Some(End::Fault(9, 0)));
        }
        Ok(None)
    }

    /// The drives of the cycle are applied, in order.
    fn apply_drives(&mut self) -> Result<(), NoMemory>
        requires { SomeCanApply self.old.outside self.old.log.due.items }
        ensures { OnOk result (DrivesDone self.old self.new) }
    {
        apply_all(&mut self.outside, &self.log.due);
        self.applied.extend_from_slice(&self.log.due)?;
        self.log.due.clear();
        Ok(())
    }
}

/// Applies drives of one cycle, in order.
fn apply_all(outside: &mut Outside<'_>, due: &[Drive])
    requires { SomeCanApply outside.old due.now }
    ensures { AppliesAll outside.old outside.new due.now }
{
    for drive in due {
        outside.apply(drive);
    }
}

/// Whether the printed text and the applied drives are more than a run may have.
fn is_too_much(printed: &[u8], applied: &[Drive]) -> bool
    ensures { result ≡ nat_lt most_text (told_size printed.now applied.now) }
{
    applied.len() > MOST_TEXT / 64 || printed.len() > MOST_TEXT - 64 * applied.len()
}
