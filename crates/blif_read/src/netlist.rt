ghost use Rattle.std.specs.Prelude.{◌≡◌, None, IfOk};
ghost use Rattle.blif_read.specs.Valid.{IsValid};

use crate::copies::{copy_covers, copy_numbers, copy_texts};
use four_state::{List, NoMemory, Text};
use std::alloc::Global;

/// A cover: each row has one of `0`, `1` and `-` for each input, and the output is 1 (or 0, where `on` is false)
/// where a row fits. `on` is true where there is no row.
#[derive(Debug, Drop)]
pub struct NetCover {
    pub inputs: List<u32>,
    pub output: u32,
    pub rows: List<Text>,
    pub on: bool,
}

/// A latch that takes its input at the rising edge of the clock. It is controlled where it has a control other than
/// `NIL`. It begins with 0 or 1, and unknown where `init` is 2 or 3.
#[derive(Clone, Copy, Debug)]
pub struct Latch {
    pub input: u32,
    pub output: u32,
    pub controlled: bool,
    pub init: u8,
}

/// A netlist: its nets by name in order of first appearance, and for the rest the nets' numbers, which count from 0
/// in that order. `clock` is the net of a `.clock` or of a latch's control. Covers and latches stand in the order of
/// the text.
#[derive(Debug, Drop)]
pub struct Netlist {
    pub nets: List<Text>,
    pub inputs: List<u32>,
    pub outputs: List<u32>,
    pub clock: Option<u32>,
    pub covers: List<NetCover>,
    pub latches: List<Latch>,
    pub ghost valid: { IsValid (record { nets = nets; inputs = inputs; outputs = outputs; clock = clock; covers = covers; latches = latches }) },
}

impl Netlist {
    ghost use Rattle.std.specs.Prelude.{[]};

    /// A netlist without any net; it takes no memory.
    pub fn empty(alloc: Global) -> Netlist
        ensures nets { result.nets ≡ [] }
        ensures inputs { result.inputs ≡ [] }
        ensures outputs { result.outputs ≡ [] }
        ensures clock { result.clock ≡ None }
        ensures covers { result.covers ≡ [] }
        ensures latches { result.latches ≡ [] }
    {
        Netlist {
            nets: List::empty(alloc),
            inputs: List::empty(alloc),
            outputs: List::empty(alloc),
            clock: None,
            covers: List::empty(alloc),
            latches: List::empty(alloc),
        }
    }

    /// A netlist equal to this one.
    pub fn copy(&self, alloc: Global) -> Result<Netlist, NoMemory>
        ensures { IfOk result (λ copy. copy ≡ self.now) }
    {
        Ok(Netlist {
            nets: copy_texts(alloc, self.nets.as_slice())?,
            inputs: copy_numbers(alloc, self.inputs.as_slice())?,
            outputs: copy_numbers(alloc, self.outputs.as_slice())?,
            clock: self.clock,
            covers: copy_covers(alloc, self.covers.as_slice())?,
            latches: List::of(Vec::from_slice(alloc, self.latches.as_slice())?),
        })
    }
}
