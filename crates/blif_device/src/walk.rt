//! An order of nets in which each comes behind what it reads.
ghost use Rattle.std.specs.Prelude.{◌≡◌, ◌≢◌, ◌-◌, ◌<◌, IfOk, OnOk, length, slice_index, MatchBool, map, option_map};
ghost use Rattle.blif_device.specs.Sources.{table_reads, source_reads};
ghost use Rattle.blif_device.specs.Orders.{ReadsBelow};
ghost use Rattle.blif_device.specs.Walks.{mark_at, Walks};
ghost use Rattle.blif_device.specs.Walking.{IsWalk, TableReadsBelow, Leads, GoesOn, Starts, HasWalked, HasRing, IsOrdering};

use crate::sources::{Source, source_reads};
use blif_read::NetCover;
use four_state::NoMemory;
use std::alloc::Global;

/// How far the walk is with a net: not there yet, on the path at this place, or done with it.
#[derive(Clone, Copy, Debug)]
pub enum Mark {
    New,
    Open(usize),
    Done,
}

/// A walk from net to net along what they read: a mark for each net, how many inputs of each are still to be looked at,
/// the path that the walk is on, and the nets that are done, in order.
#[derive(Drop)]
pub struct Walk {
    pub marks: Vec<Mark>,
    pub left: Vec<usize>,
    pub path: Vec<usize>,
    pub order: Vec<usize>,
}

fn inputs_left(
    alloc: Global,
    covers: &[NetCover],
    sources: &[Source],
) -> Result<Vec<usize>, NoMemory>
    ensures { IfOk result (λ left. left.items ≡ map (λ s. length (source_reads covers.now s)) sources.now) }
{
    let mut left = Vec::new(alloc);
    for source in sources {
        left.push(source_reads(covers, *source).len())?;
    }
    Ok(left)
}

/// Goes on to a net that every net of the path depends on.
fn enter(
    covers: &[NetCover],
    sources: &[Source],
    walk: &mut Walk,
    net: usize,
) -> Result<(), NoMemory>
    requires walk { IsWalk covers.now sources.now walk.old }
    requires below { net < length sources.now }
    requires is_new { mark_at walk.old.marks.items net ≡ Mark.New }
    requires leads { Leads (table_reads covers.now sources.now) walk.old.path.items net }
    ensures on { OnOk result (GoesOn covers.now sources.now walk.old walk.new) }
    ensures there { OnOk result (mark_at walk.new.marks.items net ≢ Mark.New) }
{
    walk.marks[net] = Mark::Open(walk.path.len());
    walk.path.push(net)?;
    Ok(())
}

/// Goes back from the last net of the path, with no input left.
fn leave(
    covers: &[NetCover],
    sources: &[Source],
    walk: &mut Walk,
    net: usize,
) -> Result<(), NoMemory>
    requires walk { IsWalk covers.now sources.now walk.old }
    requires path { 0 < length walk.old.path.items }
    requires last { slice_index walk.old.path.items (length walk.old.path.items - 1) ≡ net }
    requires left { slice_index walk.old.left.items net ≡ 0 }
    ensures { OnOk result (GoesOn covers.now sources.now walk.old walk.new) }
{
    walk.order.push(net)?;
    walk.marks[net] = Mark::Done;
    walk.path.pop();
    Ok(())
}

/// The next input of a net is done.
fn look(covers: &[NetCover], sources: &[Source], walk: &mut Walk, net: usize)
    requires walk { IsWalk covers.now sources.now walk.old }
    requires path { 0 < length walk.old.path.items }
    requires last { slice_index walk.old.path.items (length walk.old.path.items - 1) ≡ net }
    requires left { 0 < slice_index walk.old.left.items net }
    requires is_done { mark_at walk.old.marks.items (slice_index (table_reads covers.now sources.now net) (slice_index walk.old.left.items net - 1)) ≡ Mark.Done }
    ensures { GoesOn covers.now sources.now walk.old walk.new }
{
    walk.left[net] -= 1;
}

/// The last net of the path.
fn last(covers: &[NetCover], sources: &[Source], walk: &Walk) -> usize
    requires walk { IsWalk covers.now sources.now walk.now }
    requires path { 0 < length walk.now.path.items }
    ensures below { result < length sources.now }
    ensures last { slice_index walk.now.path.items (length walk.now.path.items - 1) ≡ result }
{
    walk.path[walk.path.len() - 1]
}

/// The input of a net that is looked at next.
fn next_input(covers: &[NetCover], sources: &[Source], walk: &Walk, net: usize) -> usize
    requires walk { IsWalk covers.now sources.now walk.now }
    requires reads { TableReadsBelow covers.now sources.now }
    requires net { net < length sources.now }
    requires left { 0 < slice_index walk.now.left.items net }
    ensures input { result ≡ slice_index (table_reads covers.now sources.now net) (slice_index walk.now.left.items net - 1) }
    ensures below { result < length sources.now }
{
    source_reads(covers, sources[net])[walk.left[net] - 1] as usize
}

/// One step: to the next input that isn't done, or back from a net whose inputs all are. `false` where the next input
/// is on the path.
fn step(covers: &[NetCover], sources: &[Source], walk: &mut Walk) -> Result<bool, NoMemory>
    requires walk { IsWalk covers.now sources.now walk.old }
    requires below { TableReadsBelow covers.now sources.now }
    requires path { 0 < length walk.old.path.items }
    ensures { IfOk result (λ on. MatchBool on (GoesOn covers.now sources.now walk.old walk.new) (HasRing (table_reads covers.now sources.now))) }
{
    let net = last(covers, sources, walk);
    if walk.left[net] == 0 {
        leave(covers, sources, walk, net)?;
        return Ok(true);
    }
    let input = next_input(covers, sources, walk, net);
    match walk.marks[input] {
        Mark::New => {
            enter(covers, sources, walk, input)?;
            Ok(true)
        }
        Mark::Done => {
            look(covers, sources, walk, net);
            Ok(true)
        }
        Mark::Open(_) => Ok(false),
    }
}

/// Enters a net where it is new.
fn start(
    covers: &[NetCover],
    sources: &[Source],
    walk: &mut Walk,
    net: usize,
) -> Result<(), NoMemory>
    requires walk { IsWalk covers.now sources.now walk.old }
    requires path { length walk.old.path.items ≡ 0 }
    requires net { net < length sources.now }
    ensures { OnOk result (Starts covers.now sources.now walk.old walk.new net) }
{
    match walk.marks[net] {
        Mark::New => enter(covers, sources, walk, net),
        _ => Ok(()),
    }
}

/// Walks until all that a net depends on is done. `false` where there is a ring.
fn walk_from(
    covers: &[NetCover],
    sources: &[Source],
    walk: &mut Walk,
    net: usize,
) -> Result<bool, NoMemory>
    requires walk { IsWalk covers.now sources.now walk.old }
    requires below { TableReadsBelow covers.now sources.now }
    requires path { length walk.old.path.items ≡ 0 }
    requires net { net < length sources.now }
    ensures { IfOk result (λ on. MatchBool on (HasWalked covers.now sources.now walk.old walk.new net) (HasRing (table_reads covers.now sources.now))) }
{
    start(covers, sources, walk, net)?;
    while !walk.path.is_empty() {
        if !step(covers, sources, walk)? {
            return Ok(false);
        }
    }
    Ok(true)
}

/// All nets, each behind those that it reads; nothing where there is a ring. Takes time in the order of the nets and
/// inputs of covers.
pub fn order(
    alloc: Global,
    covers: &[NetCover],
    sources: &[Source],
) -> Result<Option<Vec<usize>>, NoMemory>
    requires { TableReadsBelow covers.now sources.now }
    ensures { IfOk result (λ found. IsOrdering (table_reads covers.now sources.now) (length sources.now) (option_map (λ v. v.items) found)) }
{
    let mut walk = Walk {
        marks: vec![in alloc; Mark::New; sources.len()]?,
        left: inputs_left(alloc, covers, sources)?,
        path: Vec::new(alloc),
        order: Vec::new(alloc),
    };
    for net in 0..sources.len() {
        if !walk_from(covers, sources, &mut walk, net)? {
            return Ok(None);
        }
    }
    let Walk {
        marks: _,
        left: _,
        path: _,
        order,
    } = walk;
    Ok(Some(order))
}
