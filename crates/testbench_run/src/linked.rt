//! The answer to a testbench and its netlist: signals are linked first, and then the testbench runs.
ghost use Rattle.std.specs.Prelude.{◌≡◌, Some, slice_get, IfOk};
ghost use Rattle.vera_ast.specs.Signals.{NamedSignal, signals_in, program_in};
ghost use Rattle.blif_read.specs.Reading.{parts_of};
ghost use Rattle.blif_device.specs.Making.{IsDevice};
ghost use Rattle.run_rules.specs.Links.{AllLink};
ghost use Rattle.run_rules.specs.Reports.{status_of};
ghost use Rattle.signal_link.specs.Linked.{AreNetsOf};
ghost use Rattle.vera_ast.specs.declared.typed.file.TypedProgram.{TypedProgram as TypedProgramOf};
ghost use Rattle.run_words.specs.Ranges.{AreTaken};
ghost use Rattle.testbench_run.specs.Answers.{RunAnswer};
ghost use Rattle.testbench_run.specs.Refusals.{link_answer};
ghost use Rattle.testbench_run.specs.Running.{IsRunnable, AnswersLinking};

use crate::answer::Answer;
use crate::refusals::{accepted, link_refusal};
use crate::report_text::report;
use blif_device::Device;
use blif_read::Netlist;
use four_state::{NoMemory, Text};
use plain_run::run;
use run_rules::{End, Limits, Status};
use run_words::Mode;
use signal_link::{LinkError, SignalNets, link, signal_names};
use std::alloc::Global;
use vera_ast::{TypedItem, TypedProgram, TypedTree};

/// The answer to a testbench and a netlist with its device.
pub fn linked_answer(
    alloc: Global,
    mode: Mode,
    limits: Limits,
    tree: &TypedTree,
    netlist: &Netlist,
    device: Device,
) -> Result<Answer, NoMemory>
    requires limits { AreTaken limits }
    requires tree { IsRunnable tree.now }
    requires device { IsDevice (parts_of netlist.now) device }
    ensures { IfOk result (AnswersLinking mode limits tree.now (parts_of netlist.now)) }
{
    match link(alloc, tree, netlist) {
        Ok(nets) => match mode {
            Mode::Check => accepted(alloc),
            Mode::Plain => run_answer(alloc, limits, tree, netlist, nets.as_slice(), device),
        },
        Err(LinkError::Unlinked(number)) => unlinked_answer(alloc, tree, number),
        Err(LinkError::NoMemory) => Err(NoMemory),
    }
}

/// The answer to a signal that doesn't link, by its number.
fn unlinked_answer(alloc: Global, tree: &TypedTree, number: u32) -> Result<Answer, NoMemory>
    requires { (signal : NamedSignal) × (slice_get (signals_in tree.now.items) number ≡ Some signal) }
    ensures { IfOk result (λ answer. (signal : NamedSignal) → slice_get (signals_in tree.now.items) number ≡ Some signal → answer ≡ link_answer signal) }
{
    let names = signal_names(alloc, tree)?;
    link_refusal(alloc, names.as_slice()[number as usize].as_slice())
}

/// The answer to a testbench whose signals have these nets: its status and its report.
fn run_answer(
    alloc: Global,
    limits: Limits,
    tree: &TypedTree,
    netlist: &Netlist,
    nets: &[SignalNets],
    device: Device,
) -> Result<Answer, NoMemory>
    requires limits { AreTaken limits }
    requires tree { IsRunnable tree.now }
    requires device { IsDevice (parts_of netlist.now) device }
    requires linked { AllLink (parts_of netlist.now) (signals_in tree.now.items) }
    requires nets { AreNetsOf netlist.now.nets (signals_in tree.now.items) nets.now }
    ensures { IfOk result (RunAnswer limits tree.now (parts_of netlist.now)) }
{
    let program = program_of(tree);
    let names = signal_names(alloc, tree)?;
    let told = run(alloc, program, nets, netlist.nets.len(), device, limits)?;
    let text = report(
        alloc,
        names.as_slice(),
        told.printed.as_slice(),
        told.applied.as_slice(),
        told.end,
        told.cycle,
    )?;
    Ok(Answer {
        status: status_of(told.end),
        text: Text::of(text),
    })
}

/// The program of a testbench that has one.
fn program_of(tree: &TypedTree) -> &TypedProgram
    requires { (program : TypedProgramOf) × (program_in tree.now.items ≡ Some program) }
    ensures { program_in tree.now.items ≡ Some result.now }
{
    program_among(tree.items.as_slice())
}

/// The first program among items that have one.
fn program_among(items: &[TypedItem]) -> &TypedProgram
    requires { (program : TypedProgramOf) × (program_in items.now ≡ Some program) }
    ensures { program_in items.now ≡ Some result.now }
{
    for item in items {
        if let TypedItem::Program(program) = item {
            return program;
        }
    }
    unreachable!()
}

fn status_of(end: End) -> Status
    ensures { result ≡ status_of end }
{
    match end {
        End::Finished | End::Limit => Status::Passed,
        End::Fault(_, _) => Status::Fault,
        End::SpentSlice | End::SpentTurns => Status::Spent,
    }
}
