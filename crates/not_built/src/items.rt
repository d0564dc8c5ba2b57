//! The items of a file, and the whole tree.

ghost use Rattle.std.specs.Prelude.{◌≡◌};
ghost use Rattle.not_built.specs.Lines.{first};
ghost use Rattle.not_built.specs.NotBuilt as spec;
ghost use Rattle.not_built.specs.Passing.{first_in};

use crate::interfaces::in_interface;
use crate::statements::in_block;
use vera_ast::{Item, Tree};

#[tactic(auto, unfolding(crate::specs::NotBuilt::item_lines))]
fn in_item(item: &Item) -> Option<u32>
    ensures { result ≡ first (spec.item_lines item.now) }
{
    match item {
        Item::Enumeration(enumeration) => Some(enumeration.line),
        Item::Class(class) => Some(class.line),
        Item::Interface(interface) => in_interface(interface),
        Item::Group(group) => Some(group.line),
        Item::Task(task) => Some(task.line),
        Item::Function(function) => Some(function.line),
        Item::Program(program) => in_block(&program.block),
    }
}

fn in_items(items: &[Item]) -> Option<u32>
    ensures { result ≡ first_in spec.item_lines items.now }
{
    for item in items {
        if let Some(line) = in_item(item) {
            return Some(line);
        }
    }
    None
}

/// The line of the first token of the first construct, in text order, that programs can't be run with yet. Built are
/// interfaces, and programs with `integer` variables, blocks, assignments, drives, `while`, clock edges and
/// `printf("%0d\n", ..)`, over sums and comparisons of names, signals and decimal numbers. The bounds of a signal's range
/// are expressions too.
#[tactic(auto, using(crate::proofs::Firsts::first_each))]
pub fn not_built(tree: &Tree) -> Option<u32>
    ensures { result ≡ spec.first_not_built tree.now }
{
    in_items(tree.items.as_slice())
}
