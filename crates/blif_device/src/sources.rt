//! Where each net's value comes from.
ghost use Rattle.std.specs.Prelude.{◌≡◌, ◌≢◌, ◌<◌, ℕ, All, AllPairs, Contains, IfOk, Some, length, slice_index_or};
ghost use Rattle.blif_read.specs.declared.netlist.Latch.{Latch as LatchOf};
ghost use Rattle.blif_read.specs.declared.netlist.NetCover.{NetCover as CoverOf};
ghost use Rattle.blif_read.specs.Reading.{parts_of};
ghost use Rattle.blif_device.specs.Sources.{source_at, IsTable, source_reads};

use blif_read::{Latch, NetCover, Netlist};
use four_state::NoMemory;
use std::alloc::Global;

/// What gives a net its value: the clock net is unknown, an input has the value that is driven on it, a latch's output
/// what the latch with this index holds, and a cover's output what the cover with this index makes of its inputs.
#[derive(Clone, Copy, Debug)]
pub enum Source {
    Clock,
    Driven,
    Latch(usize),
    Cover(usize),
}

fn put_inputs(table: &mut [Source], inputs: &[u32])
    requires { All (λ net. net < length table.old) inputs.now }
    ensures { (net : ℕ) → Contains inputs.now net → source_at table.new net ≡ Source.Driven }
{
    for net in inputs {
        table[*net as usize] = Source::Driven;
    }
}

fn put_latches(table: &mut [Source], latches: &[Latch])
    requires below { All (λ l. l.output < length table.old) latches.now }
    requires distinct { AllPairs (λ a b. a.output ≢ b.output) latches.now }
    ensures put { (k : ℕ) (d : LatchOf) → k < length latches.now → source_at table.new (slice_index_or latches.now k d).output ≡ Source.Latch k }
    ensures others { (net : ℕ) → All (λ l. l.output ≢ net) latches.now → source_at table.new net ≡ source_at table.old net }
{
    for (index, latch) in latches.iter().enumerate() {
        table[latch.output as usize] = Source::Latch(index);
    }
}

fn put_covers(table: &mut [Source], covers: &[NetCover])
    requires below { All (λ c. c.output < length table.old) covers.now }
    requires distinct { AllPairs (λ a b. a.output ≢ b.output) covers.now }
    ensures put { (k : ℕ) (d : CoverOf) → k < length covers.now → source_at table.new (slice_index_or covers.now k d).output ≡ Source.Cover k }
    ensures others { (net : ℕ) → All (λ c. c.output ≢ net) covers.now → source_at table.new net ≡ source_at table.old net }
{
    for (index, cover) in covers.iter().enumerate() {
        table[cover.output as usize] = Source::Cover(index);
    }
}

fn put_clock(table: &mut [Source], clock: Option<u32>)
    requires { (net : ℕ) → clock ≡ Some net → net < length table.old }
    ensures put { (net : ℕ) → clock ≡ Some net → source_at table.new net ≡ Source.Clock }
    ensures others { (net : ℕ) → clock ≢ Some net → source_at table.new net ≡ source_at table.old net }
{
    if let Some(net) = clock {
        table[net as usize] = Source::Clock;
    }
}

fn put_all(table: &mut [Source], netlist: &Netlist)
    requires { length table.old ≡ length netlist.now.nets }
    ensures { IsTable (parts_of netlist.now) table.new }
{
    put_inputs(table, netlist.inputs.as_slice());
    put_latches(table, netlist.latches.as_slice());
    put_covers(table, netlist.covers.as_slice());
    put_clock(table, netlist.clock);
}

/// The source of each net.
pub fn sources(alloc: Global, netlist: &Netlist) -> Result<Vec<Source>, NoMemory>
    ensures { IfOk result (λ table. IsTable (parts_of netlist.now) table.items) }
{
    let mut table = vec![in alloc; Source::Clock; netlist.nets.len()]?;
    put_all(&mut table, netlist);
    Ok(table)
}

/// The nets that a net with this source reads.
pub fn source_reads(covers: &[NetCover], source: Source) -> &[u32]
    ensures { result.now ≡ source_reads covers.now source }
{
    match source {
        Source::Cover(index) => match covers.get(index) {
            Some(cover) => cover.inputs.as_slice(),
            None => &[],
        },
        _ => &[],
    }
}
