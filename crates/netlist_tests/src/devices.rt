//! The device of a netlist.
ghost use Rattle.std.specs.Prelude.{◌≡◌, IfOk};
ghost use Rattle.blif_read.specs.Reading.{parts_of};

use crate::out::Out;
use crate::problem::Problem;
use blif_device::{Device, DeviceError};
use blif_read::Netlist;
use four_state::{Bit3, NoMemory};
use std::alloc::{AllocError, Global};

/// The values of nets behind these words on the inputs.
pub fn run(out: &mut Out, netlist: &Netlist, words: &str, nets: &[u32]) -> Result<(), Problem> {
    match Device::new(out.alloc, netlist) {
        Ok(device) => {
            let device = after(device, netlist, words)?;
            values(out, &device, netlist, nets)?;
        }
        Err(DeviceError::Loop(net)) => {
            out.put(b"loop ")?;
            out.name(netlist.nets.as_slice(), net)?;
        }
        Err(DeviceError::NoMemory) => return Err(Problem::NoMemory),
    }
    out.put(b"\n")?;
    Ok(())
}

pub fn every_net(alloc: Global, netlist: &Netlist) -> Result<Vec<u32>, AllocError> {
    (0..u32::MAX)
        .zip(netlist.nets.as_slice())
        .map(|(net, _name)| net)
        .collect(alloc)
}

/// The device with one word after the other on its inputs, and an edge behind each.
fn after(device: Device, netlist: &Netlist, words: &str) -> Result<Device, Problem>
    requires { device.netlist ≡ parts_of netlist.now }
    ensures { IfOk result (λ d. d.netlist ≡ parts_of netlist.now) }
{
    let mut device = device;
    for word in words.split(' ').filter(|word| !word.is_empty()) {
        drive_all(&mut device, netlist, word)?;
        device.settle();
        device.edge();
    }
    device.settle();
    Ok(device)
}

fn drive_all(device: &mut Device, netlist: &Netlist, word: &str) -> Result<(), Problem>
    requires { device.old.netlist ≡ parts_of netlist.now }
    ensures { device.new.netlist ≡ parts_of netlist.now }
{
    for (place, digit) in word.bytes().enumerate() {
        drive(device, netlist, place, bit(digit)?)?;
    }
    Ok(())
}

/// Drives the input at a place of `.inputs`.
fn drive(device: &mut Device, netlist: &Netlist, place: usize, value: Bit3) -> Result<(), Problem>
    requires { device.old.netlist ≡ parts_of netlist.now }
    ensures { device.new.netlist ≡ parts_of netlist.now }
{
    let inputs = netlist.inputs.as_slice();
    if place < inputs.len() {
        device.set_input(inputs[place], value);
        Ok(())
    } else {
        Err(Problem::Unsupported)
    }
}

fn bit(digit: u8) -> Result<Bit3, Problem> {
    match digit {
        b'0' => Ok(Bit3::Zero),
        b'1' => Ok(Bit3::One),
        b'x' => Ok(Bit3::X),
        _ => Err(Problem::Unsupported),
    }
}

fn values(out: &mut Out, device: &Device, netlist: &Netlist, nets: &[u32]) -> Result<(), NoMemory>
    requires { device.now.netlist ≡ parts_of netlist.now }
{
    for net in nets {
        if (*net as usize) < netlist.nets.len() {
            out.put(match device.net(*net) {
                Bit3::Zero => b"0",
                Bit3::One => b"1",
                Bit3::X => b"x",
            })?;
        }
    }
    Ok(())
}
