//! The device.
ghost use Rattle.std.specs.Prelude.{◌≡◌, ◌<◌, true, false, IfOk, Contains, length, replicate, slice_set};
ghost use Rattle.blif_read.specs.Reading.{parts_of};
ghost use Rattle.blif_device.specs.Valuations.{valuation};
ghost use Rattle.blif_device.specs.Sources.{IsTable, table_reads};
ghost use Rattle.blif_device.specs.Orders.{IsOrder};
ghost use Rattle.blif_device.specs.Walking.{HasRing};
ghost use Rattle.blif_device.specs.Rings.{IsFirstOnRing};
ghost use Rattle.blif_device.specs.Edges.{held_after};
ghost use Rattle.blif_device.specs.Devices.{IsNew, TellsSettled};
ghost use Rattle.blif_device.specs.Making.{IsMaking};

use crate::latches::{first_held, take_inputs};
use crate::rings::first_on_ring;
use crate::settling::settle_all;
use crate::sources::{Source, sources};
use crate::walk::order;
use blif_read::Netlist;
use four_state::{Bit3, NoMemory};
use std::alloc::Global;
use std::marker::Model;
use thiserror::Error;

/// Why there is no device of a netlist.
#[derive(Debug, Drop, Error)]
pub enum DeviceError {
    /// N10: nets depend on each other in a ring of covers. The number of the first net, in order of appearance, that
    /// lies on a ring.
    #[error("a ring of covers through net {0}")]
    Loop(u32),
    /// There is no memory left.
    #[error("out of memory")]
    NoMemory,
}

impl From<NoMemory> for DeviceError {
    ghost use Rattle.std.specs.Prelude.{◌≡◌};
    ghost use Rattle.blif_device.specs.declared.device.DeviceError.TheVariants.{NoMemory as no_memory};

    ghost from_gives = { λ _ e. e ≡ no_memory };

    fn from(_error: NoMemory) -> DeviceError {
        DeviceError::NoMemory
    }
}

/// A netlist that runs: what is driven on its inputs, what its latches hold, and the values of its nets.
#[derive(Drop)]
pub struct Device {
    netlist: Netlist,
    sources: Vec<Source>,
    order: Vec<usize>,
    driven: Vec<Bit3>,
    held: Vec<Bit3>,
    values: Vec<Bit3>,
    settled: bool,
}

impl Model for Device {
    ghost use Rattle.blif_device.specs.Devices.{State};

    ghost Value = { State };

    ghost use Rattle.blif_device.specs.Inside.{state_of, IsSound};

    ghost view = { state_of };

    ghost invariant = { IsSound };
}

/// A value for each of so many nets, none known.
fn unknown(alloc: Global, count: usize) -> Result<Vec<Bit3>, NoMemory>
    ensures { IfOk result (λ v. v.items ≡ replicate count Bit3.X) }
{
    Ok(vec![in alloc; Bit3::X; count]?)
}

/// The refusal of a netlist that has a ring.
fn ring(alloc: Global, netlist: &Netlist, sources: &[Source]) -> Result<u32, NoMemory>
    requires table { IsTable (parts_of netlist.now) sources.now }
    requires ring { HasRing (table_reads netlist.now.covers sources.now) }
    ensures { IfOk result (IsFirstOnRing netlist.now.covers) }
{
    match first_on_ring(alloc, netlist.covers.as_slice(), sources)? {
        Some(net) => Ok(net as u32),
        None => unreachable!(),
    }
}

/// A device of a netlist with these sources and this order.
fn made(
    alloc: Global,
    netlist: &Netlist,
    sources: Vec<Source>,
    order: Vec<usize>,
) -> Result<Device, NoMemory>
    requires table { IsTable (parts_of netlist.now) sources.items }
    requires order { IsOrder (table_reads netlist.now.covers sources.items) (length sources.items) order.items }
    ensures { IfOk result (IsNew (parts_of netlist.now)) }
{
    let mut device = Device {
        netlist: netlist.copy(alloc)?,
        driven: unknown(alloc, sources.len())?,
        held: first_held(alloc, netlist.latches.as_slice())?,
        values: unknown(alloc, sources.len())?,
        sources,
        order,
        settled: false,
    };
    device.settle();
    Ok(device)
}

impl Device {
    /// The device of a netlist, settled: nothing is driven yet, and its latches hold their first values. Refused
    /// exactly where nets depend on each other in a ring of covers.
    pub fn new(alloc: Global, netlist: &Netlist) -> Result<Device, DeviceError>
        ensures { IsMaking (parts_of netlist.now) result }
    {
        let sources = sources(alloc, netlist)?;
        let Some(order) = order(alloc, netlist.covers.as_slice(), &sources)? else {
            let net = ring(alloc, netlist, &sources)?;
            return Err(DeviceError::Loop(net));
        };
        Ok(made(alloc, netlist, sources, order)?)
    }

    /// Drives an input. Nets keep their values until `settle`; a clock net stays unknown.
    pub fn set_input(&mut self, net: u32, value: Bit3)
        requires { Contains self.old.netlist.inputs net }
        ensures { self.new ≡ record self.old { driven = slice_set self.old.driven net value; settled = false } }
    {
        self.driven[net as usize] = value;
        self.settled = false;
    }

    /// Settles the nets, in time linear in the size of the covers.
    pub fn settle(&mut self)
        ensures others { self.new ≡ record self.old { values = self.new.values; settled = true } }
        ensures settled { TellsSettled self.new }
    {
        settle_all(
            &mut self.values,
            self.netlist.covers.as_slice(),
            &self.sources,
            &self.order,
            &self.driven,
            &self.held,
        );
        self.settled = true;
    }

    /// A rising edge of the clock: each latch takes the value of its input. Nets keep their values until `settle`.
    pub fn edge(&mut self)
        requires { self.old.settled ≡ true }
        ensures { self.new ≡ record self.old { held = held_after self.old.netlist (valuation self.old.values); settled = false } }
    {
        take_inputs(
            &mut self.held,
            self.netlist.latches.as_slice(),
            &self.values,
        );
        self.settled = false;
    }

    /// The value of a net when the device was last settled.
    pub fn net(&self, net: u32) -> Bit3
        requires { net < length self.now.netlist.nets }
        ensures { result ≡ valuation self.now.values net }
    {
        self.values[net as usize]
    }
}
