//! The first net that depends on itself.
ghost use Rattle.std.specs.Prelude.{◌≡◌, ◌<◌, ◌∷◌, [], ℕ, true, All, IfOk, OnOk, length, slice_index};
ghost use Rattle.blif_device.specs.Sources.{table_reads};
ghost use Rattle.blif_device.specs.Walking.{TableReadsBelow};
ghost use Rattle.blif_device.specs.Reaching.{is_marked, IsMarked, MarksAll, TellsRing, TellsFirst};

use crate::sources::{Source, source_reads};
use blif_read::NetCover;
use four_state::NoMemory;
use std::alloc::Global;

/// Marks a net and adds it to the list, where it isn't marked yet.
fn mark(marks: &mut [bool], found: &mut Vec<usize>, net: usize) -> Result<(), NoMemory>
    requires below { net < length marks.old }
    requires listed { IsMarked marks.old found.old.items }
    ensures { OnOk result (MarksAll (net ∷ []) marks.old marks.new found.old.items found.new.items) }
{
    if !marks[net] {
        marks[net] = true;
        found.push(net)?;
    }
    Ok(())
}

/// Marks those of the nets that aren't marked yet, and adds them to the list.
fn mark_all(marks: &mut [bool], found: &mut Vec<usize>, nets: &[u32]) -> Result<(), NoMemory>
    requires below { All (λ net. net < length marks.old) nets.now }
    requires listed { IsMarked marks.old found.old.items }
    ensures { OnOk result (MarksAll nets.now marks.old marks.new found.old.items found.new.items) }
{
    for net in nets {
        mark(marks, found, *net as usize)?;
    }
    Ok(())
}

/// Marks what a net reads.
fn mark_reads(
    covers: &[NetCover],
    sources: &[Source],
    marks: &mut [bool],
    found: &mut Vec<usize>,
    net: usize,
) -> Result<(), NoMemory>
    requires below { TableReadsBelow covers.now sources.now }
    requires net { net < length sources.now }
    requires size { length marks.old ≡ length sources.now }
    requires listed { IsMarked marks.old found.old.items }
    ensures { OnOk result (MarksAll (table_reads covers.now sources.now net) marks.old marks.new found.old.items found.new.items) }
{
    mark_all(marks, found, source_reads(covers, sources[net]))
}

/// A net of the list.
fn found_at(marks: &[bool], found: &[usize], place: usize) -> usize
    requires listed { IsMarked marks.now found.now }
    requires place { place < length found.now }
    ensures below { result < length marks.now }
    ensures net { result ≡ slice_index found.now place }
{
    found[place]
}

/// Whether the net depends on itself; no net is marked yet.
fn reaches_itself(
    alloc: Global,
    covers: &[NetCover],
    sources: &[Source],
    marks: &mut [bool],
    net: usize,
) -> Result<bool, NoMemory>
    requires below { TableReadsBelow covers.now sources.now }
    requires net { net < length sources.now }
    requires size { length marks.old ≡ length sources.now }
    requires none { (other : ℕ) → is_marked marks.old other ≡ true → ⊥ }
    ensures { IfOk result (TellsRing (table_reads covers.now sources.now) net) }
{
    let mut found = Vec::new(alloc);
    mark_reads(covers, sources, marks, &mut found, net)?;
    let mut head = 0;
    while head < found.len() {
        let next = found_at(marks, &found, head);
        mark_reads(covers, sources, marks, &mut found, next)?;
        head += 1;
    }
    Ok(marks[net])
}

/// Whether the net depends on itself.
fn is_on_ring(
    alloc: Global,
    covers: &[NetCover],
    sources: &[Source],
    net: usize,
) -> Result<bool, NoMemory>
    requires below { TableReadsBelow covers.now sources.now }
    requires net { net < length sources.now }
    ensures { IfOk result (TellsRing (table_reads covers.now sources.now) net) }
{
    let mut marks = vec![in alloc; false; sources.len()]?;
    reaches_itself(alloc, covers, sources, &mut marks, net)
}

/// The first net that depends on itself, if one does. Each net before it costs a search through all that it depends on.
pub fn first_on_ring(
    alloc: Global,
    covers: &[NetCover],
    sources: &[Source],
) -> Result<Option<usize>, NoMemory>
    requires { TableReadsBelow covers.now sources.now }
    ensures { IfOk result (TellsFirst (table_reads covers.now sources.now) (length sources.now)) }
{
    for net in 0..sources.len() {
        if is_on_ring(alloc, covers, sources, net)? {
            return Ok(Some(net));
        }
    }
    Ok(None)
}
