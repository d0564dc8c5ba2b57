//! What tokens give to a tree.

ghost use Rattle.std.specs.Prelude.{◌≡◌, ◌∷◌, IfOk};

use four_state::{List, Text};
use sqlite_items::Items;
use std::alloc::{AllocError, Global};
use vera_ast::Number;

/// A name or a string, and its line.
#[derive(Drop)]
pub struct Name {
    pub line: u32,
    pub text: Text,
}

/// A number literal, and its line.
#[derive(Drop)]
pub struct Numeral {
    pub line: u32,
    pub number: Number,
}

/// The first item and the others.
pub fn items_from<T: Drop>(alloc: Global, first: T, more: Items<T>) -> Result<Items<T>, AllocError>
    ensures { IfOk result (λ all. all ≡ first ∷ more) }
{
    let mut all = Items::new(alloc);
    all.push(first)?;
    all.append(more)?;
    Ok(all)
}

/// The first item and the others.
pub fn list_from<T: Drop>(alloc: Global, first: T, more: List<T>) -> Result<List<T>, AllocError>
    ensures { IfOk result (λ all. all ≡ first ∷ more) }
{
    let mut others = more.into_vec();
    let mut all = Vec::new(alloc);
    all.push(first)?;
    all.append(&mut others)?;
    Ok(List::of(all))
}
