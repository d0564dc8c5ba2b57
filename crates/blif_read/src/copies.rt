//! Copies of a netlist's parts.
ghost use Rattle.std.specs.Prelude.{◌≡◌, IfOk};

use crate::netlist::NetCover;
use four_state::{List, NoMemory, Text};
use std::alloc::Global;

pub fn copy_numbers(alloc: Global, numbers: &[u32]) -> Result<List<u32>, NoMemory>
    ensures { IfOk result (λ copy. copy ≡ numbers.now) }
{
    Ok(List::of(Vec::from_slice(alloc, numbers)?))
}

pub fn copy_texts(alloc: Global, texts: &[Text]) -> Result<List<Text>, NoMemory>
    ensures { IfOk result (λ copy. copy ≡ texts.now) }
{
    let mut copies = Vec::new(alloc);
    for text in texts {
        copies.push(text.copy()?)?;
    }
    Ok(List::of(copies))
}

fn copy_cover(alloc: Global, cover: &NetCover) -> Result<NetCover, NoMemory>
    ensures { IfOk result (λ copy. copy ≡ cover.now) }
{
    Ok(NetCover {
        inputs: copy_numbers(alloc, cover.inputs.as_slice())?,
        output: cover.output,
        rows: copy_texts(alloc, cover.rows.as_slice())?,
        on: cover.on,
    })
}

pub fn copy_covers(alloc: Global, covers: &[NetCover]) -> Result<List<NetCover>, NoMemory>
    ensures { IfOk result (λ copy. copy ≡ covers.now) }
{
    let mut copies = Vec::new(alloc);
    for cover in covers {
        copies.push(copy_cover(alloc, cover)?)?;
    }
    Ok(List::of(copies))
}
