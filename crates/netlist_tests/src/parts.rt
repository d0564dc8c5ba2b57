//! A netlist's parts.

use crate::out::Out;
use blif_read::{Latch, NetCover, Netlist};
use four_state::NoMemory;

/// `nets a b q; inputs 0; outputs 2; clock 1; cover 0 -> 2 on "0"; latch 2 -> 0 1 controlled`.
pub fn parts(out: &mut Out, netlist: &Netlist) -> Result<(), NoMemory> {
    out.put(b"nets")?;
    out.names(netlist.nets.as_slice())?;
    out.put(b"; inputs")?;
    out.numbers(netlist.inputs.as_slice())?;
    out.put(b"; outputs")?;
    out.numbers(netlist.outputs.as_slice())?;
    match netlist.clock {
        Some(net) => {
            out.put(b"; clock")?;
            out.numbers(&[net])?;
        }
        None => out.put(b"; no clock")?,
    }
    for part in netlist.covers.as_slice() {
        cover(out, part)?;
    }
    for part in netlist.latches.as_slice() {
        latch(out, part)?;
    }
    out.put(b"\n")
}

fn cover(out: &mut Out, cover: &NetCover) -> Result<(), NoMemory> {
    out.put(b"; cover")?;
    out.numbers(cover.inputs.as_slice())?;
    out.put(b" ->")?;
    out.numbers(&[cover.output])?;
    out.put(if cover.on { b" on" } else { b" off" })?;
    for row in cover.rows.as_slice() {
        out.put(b" \"")?;
        out.put(row.as_slice())?;
        out.put(b"\"")?;
    }
    Ok(())
}

fn latch(out: &mut Out, latch: &Latch) -> Result<(), NoMemory> {
    out.put(b"; latch")?;
    out.numbers(&[latch.input])?;
    out.put(b" ->")?;
    out.numbers(&[latch.output, u32::from(latch.init)])?;
    out.put(if latch.controlled {
        b" controlled"
    } else {
        b""
    })
}

/// `3 nets, 1 inputs, 1 outputs, a clock, 1 covers, 1 latches`.
pub fn counts(out: &mut Out, netlist: &Netlist) -> Result<(), NoMemory> {
    let clock = if netlist.clock.is_some() { "a" } else { "no" };
    let text = format!(in out.alloc;
        "{} nets, {} inputs, {} outputs, {clock} clock, {} covers, {} latches\n",
        netlist.nets.len(),
        netlist.inputs.len(),
        netlist.outputs.len(),
        netlist.covers.len(),
        netlist.latches.len()
    )?;
    out.put(text.as_bytes())
}
