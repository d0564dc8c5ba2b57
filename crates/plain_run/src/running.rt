//! A run from its beginning to its end.
ghost use Rattle.std.specs.Prelude.{◌≡◌, ◌<◌, IfOk};
ghost use Rattle.run_rules.specs.Designs.{Design};
ghost use Rattle.blif_device.specs.Edges.{first_held};
ghost use Rattle.plain_run.specs.Begun.{IsBegun};
ghost use Rattle.plain_run.specs.Outsides.{undriven};
ghost use Rattle.plain_run.specs.Records.{CanRun, RanTo};
ghost use Rattle.plain_run.specs.Standing.{StandsAt};

use crate::cycles::Run;
use crate::evaluate::log::Log;
use crate::evaluate::values::Values;
use crate::evaluate::work::Work;
use crate::outside::Outside;
use blif_device::Device;
use four_state::NoMemory;
use run_rules::{Drive, End, Limits};
use signal_link::SignalNets;
use std::alloc::Global;
use vera_ast::TypedProgram;

/// What a run has told by its end: how it ended and in which cycle, the bytes that it printed, and the drives that
/// were applied, in order.
#[derive(Drop)]
pub struct Record {
    pub end: End,
    pub cycle: u64,
    pub printed: Vec<u8>,
    pub applied: Vec<Drive>,
}

/// Runs a program by one thread against a netlist of so many nets: its new device, and the nets of each signal. The
/// limits say how far: up to the last cycle, with a budget of ticks a slice, and so many slices a cycle, at least one.
pub fn run<'a>(
    alloc: Global,
    program: &'a TypedProgram,
    nets: &'a [SignalNets],
    count: usize,
    device: Device,
    limits: Limits,
) -> Result<Record, NoMemory>
    requires run { (design : Design) × CanRun design program.now nets.now count device }
    requires turns { 0 < limits.turns }
    ensures { IfOk result (λ told. (design : Design) → CanRun design program.now nets.now count device → RanTo design program.now limits told) }
{
    let mut run = begun(alloc, program, nets, count, device)?;
    loop {
        if let Some(end) = run.one_cycle(alloc, limits)? {
            return Ok(told(run, end));
        }
    }
}

/// What a run that has ended has told.
fn told(run: Run<'_>, end: End) -> Record
    ensures { result ≡ record { end = end; cycle = run.entry.cycle; printed = run.entry.log.printed; applied = run.entry.applied } }
{
    let log = run.log;
    Record {
        end,
        cycle: run.cycle,
        printed: log.printed,
        applied: run.applied,
    }
}

/// A run before its first slice.
fn begun<'a>(
    alloc: Global,
    program: &'a TypedProgram,
    nets: &'a [SignalNets],
    count: usize,
    device: Device,
) -> Result<Run<'a>, NoMemory>
    ensures begun { IfOk result (λ run. IsBegun run program.now) }
    ensures stands { IfOk result (λ run. (design : Design) → CanRun design program.now nets.now count device → StandsAt run design undriven (first_held design.netlist)) }
{
    let mut agenda = Vec::new(alloc);
    agenda.push(Work::Block(&program.block))?;
    Ok(Run {
        agenda,
        values: Values::new(alloc),
        log: Log::new(alloc),
        outside: Outside::new(alloc, nets, count, device)?,
        applied: Vec::new(alloc),
        cycle: 0,
    })
}
