//! What the nets of a netlist may be used for.
ghost use Rattle.std.specs.Prelude.{◌≡◌, ℕ, [], ◌++◌, List, length, IfOk, false, slice_index_or};
ghost use Rattle.std.specs.Bool.{Decides};
ghost use Rattle.std.specs.List.{list_all};
ghost use Rattle.vera_ast.specs.declared.tree.interfaces.Direction.{Direction as DirectionOf};
ghost use Rattle.blif_read.specs.Netlists.{Parts};
ghost use Rattle.blif_read.specs.Reading.{parts_of};
ghost use Rattle.blif_read.specs.Sets.{AllBelow};
ghost use Rattle.run_rules.specs.Links.{HasClockName, Links};
ghost use Rattle.run_rules.specs.Nets.{nets_of};
ghost use Rattle.signal_link.specs.Marks.{AreMarks};
ghost use Rattle.signal_link.specs.Roles.{AreDrivable, AreSampled, IsClockName, AreRoles, UsedAs};

use blif_read::Netlist;
use four_state::{NoMemory, Text};
use std::alloc::Global;
use vera_ast::{Direction, TypedSignal, TypedSignalKind};

/// No mark on any of so many nets.
fn no_marks(alloc: Global, count: usize) -> Result<Vec<bool>, NoMemory>
    ensures count { IfOk result (λ marks. length marks.items ≡ count) }
    ensures none { IfOk result (λ marks. AreMarks marks.items []) }
{
    Ok(vec![in alloc; false; count]?)
}

/// Marks the nets of a list.
fn mark(marks: &mut Vec<bool>, nets: &[u32])
    requires { AllBelow (length marks.old.items) nets.now }
    ensures same { length marks.new.items ≡ length marks.old.items }
    ensures marked { (known : List ℕ) → AreMarks marks.old.items known → AreMarks marks.new.items (known ++ nets.now) }
{
    for net in nets {
        marks[*net as usize] = true;
    }
}

/// A mark for each net that a testbench may drive.
fn drivable(alloc: Global, netlist: &Netlist) -> Result<Vec<bool>, NoMemory>
    ensures { IfOk result (λ marks. AreDrivable (parts_of netlist.now) marks.items) }
{
    let mut marks = no_marks(alloc, netlist.nets.len())?;
    mark(&mut marks, netlist.inputs.as_slice());
    match netlist.clock {
        Some(clock) => {
            marks[clock as usize] = false;
            Ok(marks)
        }
        None => Ok(marks),
    }
}

/// A mark for each net that may be sampled.
fn sampled(alloc: Global, netlist: &Netlist) -> Result<Vec<bool>, NoMemory>
    ensures { IfOk result (λ marks. AreSampled (parts_of netlist.now) marks.items) }
{
    let mut found = no_marks(alloc, netlist.nets.len())?;
    mark(&mut found, netlist.outputs.as_slice());
    mark(&mut found, netlist.inputs.as_slice());
    Ok(found)
}

/// The name of the clock, where there is one.
fn clock_name(netlist: &Netlist) -> Result<Option<Text>, NoMemory>
    ensures { IfOk result (λ name. IsClockName (parts_of netlist.now) name) }
{
    match netlist.clock {
        Some(clock) => Ok(Some(netlist.nets.as_slice()[clock as usize].copy()?)),
        None => Ok(None),
    }
}

/// Whether the net has a mark. A net that isn't there has none.
fn is_marked(marks: &[bool], net: u32) -> bool
    ensures { result ≡ slice_index_or marks.now net false }
{
    match marks.get(net as usize) {
        Some(mark) => *mark,
        None => false,
    }
}

/// Whether each of the nets has a mark.
fn all_marked(marks: &[bool], nets: &[u32]) -> bool
    ensures { result ≡ list_all (λ net. slice_index_or marks.now net false) nets.now }
{
    for net in nets {
        if !is_marked(marks, *net) {
            return false;
        }
    }
    true
}

/// Which nets may be driven, which may be sampled, and the name of the clock.
#[derive(Drop)]
pub struct Roles {
    drivable: Vec<bool>,
    sampled: Vec<bool>,
    clock_name: Option<Text>,
}

impl Roles {
    /// The roles of a netlist's nets.
    pub fn new(alloc: Global, netlist: &Netlist) -> Result<Roles, NoMemory>
        ensures { IfOk result (λ roles. AreRoles (parts_of netlist.now) roles) }
    {
        Ok(Roles {
            drivable: drivable(alloc, netlist)?,
            sampled: sampled(alloc, netlist)?,
            clock_name: clock_name(netlist)?,
        })
    }

    /// Whether a CLOCK of this name links: the netlist's clock has its name, or there is none.
    fn allow_clock(&self, name: &[u8]) -> bool
        ensures { (p : Parts) → AreRoles p self.now → Decides result (HasClockName p name.now) }
    {
        match &self.clock_name {
            Some(clock) => clock.as_slice() == name,
            None => true,
        }
    }

    /// Whether each of the nets may be used in this direction.
    fn allow_nets(&self, direction: Direction, nets: &[u32]) -> bool
        ensures { (p : Parts) → AreRoles p self.now → Decides result (UsedAs p direction nets.now) }
    {
        match direction {
            Direction::Output => all_marked(&self.drivable, nets),
            Direction::Input => all_marked(&self.sampled, nets),
        }
    }

    /// Whether a signal of these nets links.
    pub fn allow(&self, signal: &TypedSignal, nets: &[u32]) -> bool
        ensures { (p : Parts) → AreRoles p self.now → nets.now ≡ nets_of p.nets signal.now → Decides result (Links p signal.now) }
    {
        match signal.kind {
            TypedSignalKind::Clock => match signal.direction {
                Direction::Input => self.allow_clock(signal.name.as_slice()),
                Direction::Output => self.allow_nets(signal.direction, nets),
            },
            _ => self.allow_nets(signal.direction, nets),
        }
    }
}
