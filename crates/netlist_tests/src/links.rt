//! The signals of a testbench and their nets.

use crate::out::Out;
use crate::problem::Problem;
use blif_read::Netlist;
use four_state::{NoMemory, Text};
use signal_link::{LinkError, SignalNets, link, signal_names};
use vera_ast::TypedTree;

/// `t.d output 0 1` for each signal that links, or only how many they are and the last one; or `unlinked t.q`.
pub fn links(
    out: &mut Out,
    testbench: &TypedTree,
    netlist: &Netlist,
    all: bool,
) -> Result<(), Problem> {
    let names = signal_names(out.alloc, testbench)?;
    match link(out.alloc, testbench, netlist) {
        Ok(found) if all => linked(out, names.as_slice(), found.as_slice())?,
        Ok(found) => {
            let count = format!(in out.alloc; "{} signals\n", found.len())?;
            out.put(count.as_bytes())?;
            linked(out, last(names.as_slice()), last(found.as_slice()))?;
        }
        Err(LinkError::Unlinked(number)) => {
            out.put(b"unlinked ")?;
            out.name(names.as_slice(), number)?;
            out.put(b"\n")?;
        }
        Err(LinkError::NoMemory) => return Err(Problem::NoMemory),
    }
    Ok(())
}

/// The last item, where there is one.
fn last<T>(items: &[T]) -> &[T] {
    &items[items.len().saturating_sub(1)..]
}

fn linked(out: &mut Out, names: &[Text], found: &[SignalNets]) -> Result<(), NoMemory> {
    for (name, signal) in names.iter().zip(found) {
        out.put(name.as_slice())?;
        out.put(if signal.output { b" output" } else { b" input" })?;
        out.numbers(signal.nets.as_slice())?;
        out.put(b"\n")?;
    }
    Ok(())
}

/// `names t.a t.b`.
pub fn names(out: &mut Out, testbench: &TypedTree) -> Result<(), NoMemory> {
    let names = signal_names(out.alloc, testbench)?;
    out.put(b"names")?;
    out.names(names.as_slice())?;
    out.put(b"\n")
}
