//! Nets by name.
ghost use Rattle.std.specs.Prelude.{◌≡◌, ◌≤◌, ◌++◌, ◌∷◌, [], List, length, codes, decimal, IfOk, OnOk};
ghost use Rattle.blif_read.specs.Directives.{Name};
ghost use Rattle.blif_read.specs.Nets.{number};
ghost use Rattle.blif_read.specs.Refusals.{most_nets};
ghost use Rattle.run_rules.specs.Nets.{net_name, nets_of};
ghost use Rattle.signal_link.specs.Numbering.{FindsFirst, IsNumbering};

use four_state::{List, NoMemory, Text};
use itoa::Buffer;
use std::alloc::Global;
use std::collections::HashMap;
use vera_ast::TypedSignal;

/// Gives a name this number, unless it has one.
fn insert_new(
    numbers: &mut HashMap<Vec<u8>, u32>,
    alloc: Global,
    name: &[u8],
    number: u32,
) -> Result<(), NoMemory>
    ensures { OnOk result ((known : List Name) → FindsFirst numbers.old known → number ≡ length known → FindsFirst numbers.new (known ++ name.now ∷ [])) }
{
    if numbers.contains_key(name) {
        return Ok(());
    }
    numbers.insert(Vec::from_slice(alloc, name)?, number)?;
    Ok(())
}

/// Adds the index of a bit, in brackets.
fn push_index(name: &mut Vec<u8>, bit: u8) -> Result<(), NoMemory>
    ensures { OnOk result (name.new.items ≡ name.old.items ++ codes "[" ++ decimal bit ++ codes "]") }
{
    let mut buffer = Buffer::new();
    name.extend_from_slice(b"[")?;
    name.extend_from_slice(buffer.format(bit).as_bytes())?;
    name.extend_from_slice(b"]")?;
    Ok(())
}

/// The name of the net of a signal's bit.
fn net_name(alloc: Global, signal: &TypedSignal, bit: u8) -> Result<Vec<u8>, NoMemory>
    ensures { IfOk result (λ name. name.items ≡ net_name signal.now bit) }
{
    let mut name = Vec::from_slice(alloc, signal.name.as_slice())?;
    if signal.width.bits == 1 {
        return Ok(name);
    }
    push_index(&mut name, bit)?;
    Ok(name)
}

/// The number of each net, by name; of nets of one name it is the first one's.
#[derive(Drop)]
pub struct NetNumbers {
    count: u32,
    numbers: HashMap<Vec<u8>, u32>,
}

impl NetNumbers {
    /// The numbers of nets of these names.
    pub fn new(alloc: Global, nets: &[Text]) -> Result<NetNumbers, NoMemory>
        requires { length nets.now ≤ most_nets }
        ensures { IfOk result (λ n. IsNumbering n nets.now) }
    {
        let mut numbers = HashMap::new(alloc);
        for (number, name) in nets.iter().enumerate() {
            insert_new(&mut numbers, alloc, name.as_slice(), number as u32)?;
        }
        Ok(NetNumbers {
            count: nets.len() as u32,
            numbers,
        })
    }

    /// The number of the first net of this name, or the number of nets where there is none.
    fn number(&self, name: &[u8]) -> u32
        ensures { (known : List Name) → IsNumbering self.now known → result ≡ number known name.now }
    {
        match self.numbers.get(name) {
            Some(number) => *number,
            None => self.count,
        }
    }

    /// The nets of a signal, bit 0 first. A net that isn't there has the number of nets.
    pub fn nets_of(&self, alloc: Global, signal: &TypedSignal) -> Result<List<u32>, NoMemory>
        ensures { IfOk result (λ nets. (known : List Name) → IsNumbering self.now known → nets ≡ nets_of known signal.now) }
    {
        let mut nets = Vec::new(alloc);
        for bit in 0..signal.width.bits {
            let name = net_name(alloc, signal, bit)?;
            nets.push(self.number(&name))?;
        }
        Ok(List::of(nets))
    }
}
