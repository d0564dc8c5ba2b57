//! A netlist's parts, from its directives.
ghost use Rattle.std.specs.Prelude.{◌≡◌, ℕ, ◌++◌, ◌<◌, OnOk, IfOk, List, map, flat_map};
ghost use Rattle.std.specs.List.{slice_get};
ghost use Rattle.blif_read.specs.Refusals.{most_nets, inputs, outputs, clock_names, each, cover_bit};
ghost use Rattle.blif_read.specs.Nets.{names};
ghost use Rattle.blif_read.specs.Sets.{AllBelow};
ghost use Rattle.blif_read.specs.Checking.{NetsBelow};
ghost use Rattle.blif_read.specs.Netlists.{literals, cover_of, latch_of};

use crate::directives::{Block, Directive, Row};
use crate::netlist::{Latch, NetCover};
use crate::roles::{clock_names, inputs, outputs};
use crate::rows::cover_bit;
use four_state::{List, NoMemory, Text};
use std::alloc::Global;

fn push_numbers(numbers: &mut Vec<u32>, nets: &[usize]) -> Result<(), NoMemory>
    requires { AllBelow most_nets nets.now }
    ensures { OnOk result (numbers.new.items ≡ numbers.old.items ++ nets.now) }
{
    for net in nets {
        numbers.push(*net as u32)?;
    }
    Ok(())
}

/// The nets of all `.inputs`.
pub fn all_inputs(alloc: Global, blocks: &[Block<usize>]) -> Result<List<u32>, NoMemory>
    requires { NetsBelow most_nets blocks.now }
    ensures { IfOk result (λ found. found ≡ each inputs blocks.now) }
{
    let mut found = Vec::new(alloc);
    for block in blocks {
        push_numbers(&mut found, inputs(&block.directive))?;
    }
    Ok(List::of(found))
}

/// The nets of all `.outputs`.
pub fn all_outputs(alloc: Global, blocks: &[Block<usize>]) -> Result<List<u32>, NoMemory>
    requires { NetsBelow most_nets blocks.now }
    ensures { IfOk result (λ found. found ≡ each outputs blocks.now) }
{
    let mut found = Vec::new(alloc);
    for block in blocks {
        push_numbers(&mut found, outputs(&block.directive))?;
    }
    Ok(List::of(found))
}

/// The first name of the clock.
pub fn first_clock(blocks: &[Block<usize>]) -> Option<u32>
    requires { NetsBelow most_nets blocks.now }
    ensures { result ≡ slice_get (each clock_names blocks.now) 0 }
{
    for block in blocks {
        if let Some(net) = clock_names(&block.directive).first() {
            return Some(*net as u32);
        }
    }
    None
}

fn literals(alloc: Global, row: &Row) -> Result<Text, NoMemory>
    ensures { IfOk result (λ found. found ≡ literals row.now.parts) }
{
    match &row.parts {
        Some((literals, _)) => literals.copy(),
        None => Ok(Text::empty(alloc)),
    }
}

fn all_literals(alloc: Global, rows: &[Row]) -> Result<List<Text>, NoMemory>
    ensures { IfOk result (λ found. found ≡ map (λ r. literals r.parts) rows.now) }
{
    let mut found = Vec::new(alloc);
    for row in rows {
        found.push(literals(alloc, row)?)?;
    }
    Ok(List::of(found))
}

/// Adds the cover of a `.names`.
fn push_cover(
    alloc: Global,
    covers: &mut Vec<NetCover>,
    block: &Block<usize>,
) -> Result<(), NoMemory>
    requires { AllBelow most_nets (names block.now.directive) }
    ensures { OnOk result (covers.new.items ≡ covers.old.items ++ cover_of block.now.directive block.now.rows) }
{
    if let Directive::Names(nets, output) = &block.directive {
        let mut inputs = Vec::new(alloc);
        push_numbers(&mut inputs, nets.as_slice())?;
        covers.push(NetCover {
            inputs: List::of(inputs),
            output: *output as u32,
            rows: all_literals(alloc, block.rows.as_slice())?,
            on: cover_bit(block.rows.as_slice()),
        })?;
    }
    Ok(())
}

/// The covers in the order of the text.
pub fn all_covers(alloc: Global, blocks: &[Block<usize>]) -> Result<List<NetCover>, NoMemory>
    requires { NetsBelow most_nets blocks.now }
    ensures { IfOk result (λ found. found ≡ flat_map (λ b. cover_of b.directive b.rows) blocks.now) }
{
    let mut found = Vec::new(alloc);
    for block in blocks {
        push_cover(alloc, &mut found, block)?;
    }
    Ok(List::of(found))
}

/// Adds the latch of a `.latch`.
fn push_latch(latches: &mut Vec<Latch>, directive: &Directive<usize>) -> Result<(), NoMemory>
    requires { AllBelow most_nets (names directive.now) }
    ensures { OnOk result (latches.new.items ≡ latches.old.items ++ latch_of directive.now) }
{
    if let Directive::Latch(input, output, control, init) = directive {
        latches.push(Latch {
            input: *input as u32,
            output: *output as u32,
            controlled: control.is_some(),
            init: *init,
        })?;
    }
    Ok(())
}

/// The latches in the order of the text.
pub fn all_latches(alloc: Global, blocks: &[Block<usize>]) -> Result<List<Latch>, NoMemory>
    requires { NetsBelow most_nets blocks.now }
    ensures { IfOk result (λ found. found ≡ flat_map (λ b. latch_of b.directive) blocks.now) }
{
    let mut found = Vec::new(alloc);
    for block in blocks {
        push_latch(&mut found, &block.directive)?;
    }
    Ok(List::of(found))
}
