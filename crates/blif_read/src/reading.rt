//! Reading a netlist.
ghost use Rattle.std.specs.Prelude.{◌≡◌, ◌<◌, ℕ, List, [], length, map, IfOk, ◌++◌};
ghost use Rattle.blif_read.specs.declared.lines.Line.{Line as LineOf};
ghost use Rattle.blif_read.specs.Directives.{Name, blocks};
ghost use Rattle.blif_read.specs.Nets.{nets, numbered};
ghost use Rattle.blif_read.specs.Refusals.{first_line_refusals, line_refusals, undriven_refusals};
ghost use Rattle.blif_read.specs.Checking.{first, NetsBelow};
ghost use Rattle.blif_read.specs.Netlists.{netlist, parts, netlist_of_lines, unless_refused};
ghost use Rattle.blif_read.specs.Reading.{IsReading, MakesNetlist, parts_of};

use crate::blocks::{blocks, up_to_end};
use crate::directives::Block;
use crate::lines::{Line, net_lines};
use crate::netlist::Netlist;
use crate::nets::numbered;
use crate::parts::{all_covers, all_inputs, all_latches, all_outputs, first_clock};
use crate::refusals::{Refusal, line_refusal};
use crate::undriven::undriven_refusal;
use crate::words::is_word;
use four_state::{List, Text};
use std::alloc::Global;
use thiserror::Error;

/// Why a netlist isn't read.
#[derive(Debug, Drop, Error)]
pub enum NetError {
    /// The netlist has a refusal: a number of N01 to N09, as 1 to 9, and its line, which counts from 1.
    #[error("N0{code} line {line}")]
    Refused { code: u8, line: u32 },
    /// There is no memory left.
    #[error("out of memory")]
    NoMemory,
}

impl From<four_state::NoMemory> for NetError {
    ghost use Rattle.std.specs.Prelude.{◌≡◌};
    ghost use Rattle.blif_read.specs.declared.reading.NetError.TheVariants.{NoMemory as no_memory};

    ghost from_gives = { λ _ e. e ≡ no_memory };

    fn from(_error: four_state::NoMemory) -> NetError {
        NetError::NoMemory
    }
}

fn refused(refusal: Refusal) -> NetError
    ensures { result ≡ NetError.Refused refusal.code refusal.line }
{
    NetError::Refused {
        code: refusal.code,
        line: refusal.line,
    }
}

/// N01.
#[tactic(auto, unfolding(crate::specs::Refusals::first_line_refusals))]
fn first_line_refusal(lines: &[Line]) -> Option<Refusal>
    ensures { result ≡ first (first_line_refusals lines.now) }
{
    match lines {
        [line, ..] => {
            if is_word(&line.first, b".model") {
                return None;
            }
            Some(Refusal {
                code: 1,
                line: line.number,
            })
        }
        [] => Some(Refusal { code: 1, line: 1 }),
    }
}

/// The netlist of these directives over nets of these names.
fn made(
    alloc: Global,
    known: Vec<Text>,
    blocks: &[Block<usize>],
) -> Result<Netlist, four_state::NoMemory>
    requires { MakesNetlist known.items blocks.now }
    ensures { IfOk result (λ n. parts_of n ≡ parts known.items blocks.now) }
{
    Ok(Netlist {
        nets: List::of(known),
        inputs: all_inputs(alloc, blocks)?,
        outputs: all_outputs(alloc, blocks)?,
        clock: first_clock(blocks),
        covers: all_covers(alloc, blocks)?,
        latches: all_latches(alloc, blocks)?,
    })
}

/// The netlist of these directives, or the first refusal behind that of the first line.
fn read_blocks(
    alloc: Global,
    known: Vec<Text>,
    blocks: &[Block<usize>],
) -> Result<Netlist, NetError>
    requires below { NetsBelow (length known.items) blocks.now }
    requires makes { line_refusals blocks.now [] blocks.now ≡ [] → undriven_refusals blocks.now blocks.now ≡ [] → MakesNetlist known.items blocks.now }
    ensures { IsReading result (unless_refused (line_refusals blocks.now [] blocks.now ++ undriven_refusals blocks.now blocks.now) (parts known.items blocks.now)) }
{
    if let Some(refusal) = line_refusal(alloc, blocks, known.len())? {
        return Err(refused(refusal));
    }
    if let Some(refusal) = undriven_refusal(alloc, blocks, known.len())? {
        return Err(refused(refusal));
    }
    let netlist = made(alloc, known, blocks)?;
    Ok(netlist)
}

fn read_lines(alloc: Global, lines: Vec<Line>) -> Result<Netlist, NetError>
    ensures { IsReading result (netlist_of_lines lines.items) }
{
    if let Some(refusal) = first_line_refusal(&lines) {
        return Err(refused(refusal));
    }
    let blocks = blocks(alloc, lines)?;
    let (known, blocks) = numbered(alloc, blocks)?;
    read_blocks(alloc, known, &blocks)
}

/// The netlist that these bytes spell in BLIF, or its refusal: the first line that has one of N01, N02 and N04 to
/// N09, with its lowest number, and where no line has one the first line with N03. FORMATS.md explains the numbers.
/// Takes time in the order of the length.
pub fn read(alloc: Global, bytes: &[u8]) -> Result<Netlist, NetError>
    requires { length bytes.now < 4294967295 }
    ensures { IsReading result (netlist bytes.now) }
{
    let mut lines = net_lines(alloc, bytes)?;
    up_to_end(&mut lines);
    read_lines(alloc, lines)
}
