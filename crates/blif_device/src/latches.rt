//! What latches hold.
ghost use Rattle.std.specs.Prelude.{◌≡◌, ◌<◌, All, IfOk, length, map};
ghost use Rattle.blif_device.specs.Valuations.{valuation};
ghost use Rattle.blif_device.specs.Edges.{first_value};

use blif_read::Latch;
use four_state::{Bit3, NoMemory};
use std::alloc::Global;

/// What a latch with this `init` holds at first.
fn first_value(init: u8) -> Bit3
    ensures { result ≡ first_value init }
{
    match init {
        0 => Bit3::Zero,
        1 => Bit3::One,
        _ => Bit3::X,
    }
}

/// What the latches hold at first.
pub fn first_held(alloc: Global, latches: &[Latch]) -> Result<Vec<Bit3>, NoMemory>
    ensures { IfOk result (λ held. held.items ≡ map (λ l. first_value l.init) latches.now) }
{
    let mut held = Vec::new(alloc);
    for latch in latches {
        held.push(first_value(latch.init))?;
    }
    Ok(held)
}

/// Makes each latch hold its input's value.
pub fn take_inputs(held: &mut [Bit3], latches: &[Latch], values: &[Bit3])
    requires size { length held.old ≡ length latches.now }
    requires below { All (λ l. l.input < length values.now) latches.now }
    ensures { held.new ≡ map (λ l. valuation values.now l.input) latches.now }
{
    for (index, latch) in latches.iter().enumerate() {
        held[index] = values[latch.input as usize];
    }
}
