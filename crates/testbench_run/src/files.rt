//! The answer to the bytes of the files: the source is looked at first, then the netlist and its rings.
ghost use Rattle.std.specs.Prelude.{◌≡◌, ◌≤◌, length, IfOk, IfSome, option_map};
ghost use Rattle.blif_read.specs.Reading.{parts_of};
ghost use Rattle.run_words.specs.Ranges.{AreTaken};
ghost use Rattle.testbench_run.specs.Answers.{file_limit, purpose_of, AnswersAlone, AnswersFiles, AnswersParts, AnswersTree};
ghost use Rattle.testbench_run.specs.Running.{IsRunnable};

use crate::answer::Answer;
use crate::linked::linked_answer;
use crate::reading::FILE_LIMIT;
use crate::refusals::{accepted, netlist_refusal, ring_refusal, source_refusal};
use blif_device::{Device, DeviceError};
use blif_read::{NetError, Netlist, read};
use four_state::NoMemory;
use front_end::{Purpose, read_source};
use run_rules::Limits;
use run_words::Mode;
use std::alloc::Global;
use vera_ast::{FrontError, TypedTree};

/// The answer to the bytes of a testbench and, where there is one, of a netlist.
pub fn files_answer(
    alloc: Global,
    mode: Mode,
    limits: Limits,
    source: &[u8],
    netlist: Option<&[u8]>,
) -> Result<Answer, NoMemory>
    requires limits { AreTaken limits }
    requires source { length source.now ≤ FILE_LIMIT }
    requires netlist { IfSome netlist (λ bytes. length bytes.now ≤ FILE_LIMIT) }
    ensures { IfOk result (AnswersFiles mode limits source.now (option_map (λ bytes. bytes.now) netlist.entry)) }
{
    match read_source(alloc, source, purpose_of(mode)) {
        Ok(tree) => tree_answer(alloc, mode, limits, &tree, netlist),
        Err(FrontError::Refused(refusal)) => source_refusal(alloc, refusal),
        Err(FrontError::NoMemory) => Err(NoMemory),
    }
}

/// What a testbench is read for.
fn purpose_of(mode: Mode) -> Purpose
    ensures { result ≡ purpose_of mode }
{
    match mode {
        Mode::Check => Purpose::Check,
        Mode::Plain => Purpose::Run,
    }
}

/// The answer to a testbench and the bytes of a netlist, where there is one.
fn tree_answer(
    alloc: Global,
    mode: Mode,
    limits: Limits,
    tree: &TypedTree,
    netlist: Option<&[u8]>,
) -> Result<Answer, NoMemory>
    requires limits { AreTaken limits }
    requires tree { IsRunnable tree.now }
    requires netlist { IfSome netlist (λ bytes. length bytes.now ≤ FILE_LIMIT) }
    ensures { IfOk result (AnswersTree mode limits tree.now (option_map (λ bytes. bytes.now) netlist.entry)) }
{
    match netlist {
        None => answer_alone(alloc, mode, limits, tree),
        Some(bytes) => match read(alloc, bytes) {
            Ok(netlist) => parts_answer(alloc, mode, limits, tree, &netlist),
            Err(NetError::Refused { code, line }) => netlist_refusal(alloc, code, line),
            Err(NetError::NoMemory) => Err(NoMemory),
        },
    }
}

/// The answer to a testbench without a netlist. A check doesn't link its signals; a run is one against an empty netlist.
fn answer_alone(
    alloc: Global,
    mode: Mode,
    limits: Limits,
    tree: &TypedTree,
) -> Result<Answer, NoMemory>
    requires limits { AreTaken limits }
    requires tree { IsRunnable tree.now }
    ensures { IfOk result (AnswersAlone mode limits tree.now) }
{
    match mode {
        Mode::Check => accepted(alloc),
        Mode::Plain => parts_answer(alloc, mode, limits, tree, &Netlist::empty(alloc)),
    }
}

/// The answer to a netlist, which has a device unless its nets have a ring.
fn parts_answer(
    alloc: Global,
    mode: Mode,
    limits: Limits,
    tree: &TypedTree,
    netlist: &Netlist,
) -> Result<Answer, NoMemory>
    requires limits { AreTaken limits }
    requires tree { IsRunnable tree.now }
    ensures { IfOk result (AnswersParts mode limits tree.now (parts_of netlist.now)) }
{
    match Device::new(alloc, netlist) {
        Ok(device) => linked_answer(alloc, mode, limits, tree, netlist, device),
        Err(DeviceError::Loop(net)) => {
            ring_refusal(alloc, netlist.nets.as_slice()[net as usize].as_slice())
        }
        Err(DeviceError::NoMemory) => Err(NoMemory),
    }
}
