//! The names of signals, as reports and refusals write them.
ghost use Rattle.std.specs.Prelude.{◌≡◌, ◌++◌, ◌∷◌, [], Some, map, codes, IfOk, OnOk};
ghost use Rattle.vera_ast.specs.Signals.{signals_in};
ghost use Rattle.run_rules.specs.Reports.{signal_name};

use four_state::{List, NoMemory, Text};
use std::alloc::Global;
use vera_ast::{TypedInterface, TypedItem, TypedSignal, TypedTree};

/// `INTERFACE.SIGNAL`.
fn label(interface: &Text, signal: &TypedSignal) -> Result<Text, NoMemory>
    ensures { IfOk result (λ name. name ≡ interface.now ++ codes "." ++ signal.now.name) }
{
    let mut name = interface.copy()?;
    name.push_slice(b".")?;
    name.push_slice(signal.name.as_slice())?;
    Ok(name)
}

/// Adds the names of an interface's signals.
fn push_labels(names: &mut Vec<Text>, interface: &TypedInterface) -> Result<(), NoMemory>
    ensures { OnOk result (names.new.items ≡ names.old.items ++ map (λ s. interface.now.name ++ codes "." ++ s.name) interface.now.signals) }
{
    for signal in interface.signals.as_slice() {
        names.push(label(&interface.name, signal)?)?;
    }
    Ok(())
}

/// Adds the names of an item's signals.
fn push_item_labels(names: &mut Vec<Text>, item: &TypedItem) -> Result<(), NoMemory>
    ensures { OnOk result (names.new.items ≡ names.old.items ++ map (λ s. signal_name (Some s)) (signals_in (item.now ∷ []))) }
{
    match item {
        TypedItem::Interface(interface) => push_labels(names, interface),
        _ => Ok(()),
    }
}

/// The name of each signal of a testbench, `INTERFACE.SIGNAL`, in text order: that of signal n is the item at n.
pub fn signal_names(alloc: Global, tree: &TypedTree) -> Result<List<Text>, NoMemory>
    ensures { IfOk result (λ names. names ≡ map (λ s. signal_name (Some s)) (signals_in tree.now.items)) }
{
    let mut names = Vec::new(alloc);
    for item in tree.items.as_slice() {
        push_item_labels(&mut names, item)?;
    }
    Ok(List::of(names))
}
