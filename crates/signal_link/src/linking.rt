//! Linking signals in text order.
ghost use Rattle.std.specs.Prelude.{◌≡◌, ℕ, List, [], ◌∷◌, ◌++◌, map, IfOk, IfErr};
ghost use Rattle.blif_read.specs.Netlists.{Parts};
ghost use Rattle.blif_read.specs.Reading.{parts_of};
ghost use Rattle.vera_ast.specs.Signals.{NamedSignal, signals_in};
ghost use Rattle.run_rules.specs.Links.{AllLink};
ghost use Rattle.run_rules.specs.Nets.{is_output};
ghost use Rattle.signal_link.specs.Linked.{AreNetsOf, IsLinkError};
ghost use Rattle.signal_link.specs.Linking.{IsLinkerOf, IsAnswerFor, AreLinked, Continues, IsUnlinkedAt, named};

use crate::numbers::NetNumbers;
use crate::roles::Roles;
use blif_read::Netlist;
use four_state::List;
use std::alloc::Global;
use thiserror::Error;
use vera_ast::{Direction, TypedItem, TypedSignal, TypedTree};

/// The nets of one signal, bit 0 first, and whether the testbench drives them. The net of a CLOCK that the netlist
/// doesn't have has the number of nets.
#[derive(Debug, Drop)]
pub struct SignalNets {
    pub output: bool,
    pub nets: List<u32>,
}

/// Why signals don't link.
#[derive(Debug, Drop, Error)]
pub enum LinkError {
    /// The number of the first signal in text order that doesn't link.
    #[error("signal {0} doesn't link")]
    Unlinked(u32),
    /// There is no memory left.
    #[error("out of memory")]
    NoMemory,
}

impl From<four_state::NoMemory> for LinkError {
    ghost use Rattle.std.specs.Prelude.{◌≡◌};
    ghost use Rattle.signal_link.specs.declared.linking.LinkError.TheVariants.{NoMemory as no_memory};

    ghost from_gives = { λ _ e. e ≡ no_memory };

    fn from(_error: four_state::NoMemory) -> LinkError {
        LinkError::NoMemory
    }
}

fn is_output(direction: Direction) -> bool
    ensures { result ≡ is_output direction }
{
    match direction {
        Direction::Output => true,
        Direction::Input => false,
    }
}

/// The refusal of the signal of this number. No list in memory has a greater number than the type.
fn unlinked(number: usize) -> LinkError
    ensures { IsUnlinkedAt number result }
{
    match u32::try_from(number) {
        Ok(number) => LinkError::Unlinked(number),
        Err(_) => LinkError::NoMemory,
    }
}

/// A netlist's nets by name, and what they may be used for.
#[derive(Drop)]
struct Linker {
    numbers: NetNumbers,
    roles: Roles,
}

impl Linker {
    fn new(alloc: Global, netlist: &Netlist) -> Result<Linker, four_state::NoMemory>
        ensures { IfOk result (λ linker. IsLinkerOf (parts_of netlist.now) linker) }
    {
        Ok(Linker {
            numbers: NetNumbers::new(alloc, netlist.nets.as_slice())?,
            roles: Roles::new(alloc, netlist)?,
        })
    }

    /// The nets of a signal that links.
    fn nets(
        &self,
        alloc: Global,
        signal: &TypedSignal,
    ) -> Result<Option<SignalNets>, four_state::NoMemory>
        ensures { IfOk result (λ nets. (p : Parts) → IsLinkerOf p self.now → IsAnswerFor p signal.now nets) }
    {
        let nets = self.numbers.nets_of(alloc, signal)?;
        if !self.roles.allow(signal, nets.as_slice()) {
            return Ok(None);
        }
        Ok(Some(SignalNets {
            output: is_output(signal.direction),
            nets,
        }))
    }

    /// Adds the nets of a signal, which is the next after those that have been found.
    fn link_signal(
        &self,
        alloc: Global,
        signal: &TypedSignal,
        found: &mut List<SignalNets>,
    ) -> Result<(), LinkError>
        ensures { (p : Parts) (known : List NamedSignal) (s : NamedSignal) → IsLinkerOf p self.now → AreLinked p known found.old → s.signal ≡ signal.now → Continues p (known ++ s ∷ []) found.new result }
    {
        match self.nets(alloc, signal)? {
            Some(nets) => {
                found.push(nets)?;
                Ok(())
            }
            None => Err(unlinked(found.len())),
        }
    }

    /// Adds the nets of an interface's signals.
    fn link_signals(
        &self,
        alloc: Global,
        signals: &[TypedSignal],
        found: &mut List<SignalNets>,
    ) -> Result<(), LinkError>
        ensures { (p : Parts) (known : List NamedSignal) (interface : List ℕ) → IsLinkerOf p self.now → AreLinked p known found.old → Continues p (known ++ map (named interface) signals.now) found.new result }
    {
        for signal in signals {
            self.link_signal(alloc, signal, found)?;
        }
        Ok(())
    }

    /// Adds the nets of an item's signals.
    fn link_item(
        &self,
        alloc: Global,
        item: &TypedItem,
        found: &mut List<SignalNets>,
    ) -> Result<(), LinkError>
        ensures { (p : Parts) (known : List NamedSignal) → IsLinkerOf p self.now → AreLinked p known found.old → Continues p (known ++ signals_in (item.now ∷ [])) found.new result }
    {
        match item {
            TypedItem::Interface(interface) => {
                self.link_signals(alloc, interface.signals.as_slice(), found)
            }
            _ => Ok(()),
        }
    }
}

/// The nets of each signal of a testbench, in text order, or the first signal that doesn't link: an output signal one
/// of whose nets isn't an input of the netlist or is its clock, an input signal one of whose nets is neither an output
/// nor an input, or a CLOCK where the netlist's clock has another name. Against an empty netlist every signal but a
/// CLOCK is refused.
pub fn link(
    alloc: Global,
    tree: &TypedTree,
    netlist: &Netlist,
) -> Result<List<SignalNets>, LinkError>
    ensures linked { IfOk result (λ all. AllLink (parts_of netlist.now) (signals_in tree.now.items) × AreNetsOf netlist.now.nets (signals_in tree.now.items) all) }
    ensures unlinked { IfErr result (λ e. IsLinkError (parts_of netlist.now) (signals_in tree.now.items) e) }
{
    let linker = Linker::new(alloc, netlist)?;
    let mut found = List::empty(alloc);
    for item in tree.items.as_slice() {
        linker.link_item(alloc, item, &mut found)?;
    }
    Ok(found)
}
