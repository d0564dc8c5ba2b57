//! What can't be checked yet: classes and coverage groups alone.

ghost use Rattle.std.specs.Prelude.{◌≡◌};
ghost use Rattle.not_built.specs.Lines.{first};
ghost use Rattle.not_built.specs.NotBuilt as spec;
ghost use Rattle.not_built.specs.Passing.{first_in};

use vera_ast::{Item, Tree};

#[tactic(auto, unfolding(crate::specs::NotBuilt::unchecked_lines))]
fn in_item(item: &Item) -> Option<u32>
    ensures { result ≡ first (spec.unchecked_lines item.now) }
{
    match item {
        Item::Class(class) => Some(class.line),
        Item::Group(group) => Some(group.line),
        Item::Enumeration(_)
        | Item::Interface(_)
        | Item::Task(_)
        | Item::Function(_)
        | Item::Program(_) => None,
    }
}

fn in_items(items: &[Item]) -> Option<u32>
    ensures { result ≡ first_in spec.unchecked_lines items.now }
{
    for item in items {
        if let Some(line) = in_item(item) {
            return Some(line);
        }
    }
    None
}

/// The line of the first class or coverage group, which can't be checked yet.
#[tactic(auto, using(crate::proofs::Firsts::first_each))]
pub fn not_checked(tree: &Tree) -> Option<u32>
    ensures { result ≡ spec.first_not_checked tree.now }
{
    in_items(tree.items.as_slice())
}
