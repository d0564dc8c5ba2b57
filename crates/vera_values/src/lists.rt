//! Lists of typed parts, made longer.

ghost use Rattle.std.specs.Prelude.{◌≡◌, [], ◌∷◌, ◌++◌, IfOk};

use four_state::{List, NoMemory};
use sqlite_items::Items;
use vera_ast::with;

/// Items with one more at their end.
pub fn items_with<T: Drop>(items: Items<T>, item: T) -> Result<Items<T>, NoMemory>
    ensures { IfOk result (λ all. all ≡ items ++ item ∷ []) }
{
    let mut items = items;
    let pushed = items.push(item);
    let (items, ()) = with(items, pushed)?;
    Ok(items)
}

/// A list with one more item at its end.
pub fn list_with<T: Drop>(list: List<T>, item: T) -> Result<List<T>, NoMemory>
    ensures { IfOk result (λ all. all ≡ list ++ item ∷ []) }
{
    let mut list = list;
    let pushed = list.push(item);
    let (list, ()) = with(list, pushed)?;
    Ok(list)
}
