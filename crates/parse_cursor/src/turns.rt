//! Any number of one kind, and one or none.

ghost use Rattle.std.specs.Prelude.{◌≡◌, List, length, Result};
ghost use Rattle.vera_ast.specs.declared.token.Token.{Token};
ghost use Rattle.parse_cursor.specs.declared.cursor.Cursor.{Cursor};
ghost use Rattle.grammar_laws.specs.Readers.{Reads, Parser};
ghost use Rattle.parse_cursor.specs.TokenReading.{many, maybe};
ghost use Rattle.parse_cursor.specs.Nesting.{Follows, listed};

use crate::cursor::Cursor;
use four_state::List;
use grammar_laws::Fault;
use sqlite_items::Items;
use std::alloc::Global;

/// Reads items for as long as one of these codes comes.
fn turns<T: Drop, F: Fn(&mut Cursor<'_>) -> Result<T, Fault>>(
    alloc: Global,
    tokens: &mut Cursor<'_>,
    codes: &[u8],
    item: F,
) -> Result<Vec<T>, Fault>
    requires { F.IsAlwaysCallable item }
    ensures { (p : Parser Token T) → Follows p (F.pre item) (F.post item) → Reads (many codes.now p tokens.old.rest.now) (listed result) tokens.new.rest.now }
{
    let mut found = Vec::new(alloc);
    for _turn in 0..tokens.rest.len() {
        if !tokens.begins(codes) {
            return Ok(found);
        }
        found.push(item(tokens)?)?;
    }
    Ok(found)
}

/// Reads items for as long as one of these codes comes.
pub fn many<T: Drop, F: Fn(&mut Cursor<'_>) -> Result<T, Fault>>(
    alloc: Global,
    tokens: &mut Cursor<'_>,
    codes: &[u8],
    item: F,
) -> Result<Items<T>, Fault>
    requires { F.IsAlwaysCallable item }
    ensures { (p : Parser Token T) → Follows p (F.pre item) (F.post item) → Reads (many codes.now p tokens.old.rest.now) result tokens.new.rest.now }
{
    match turns(alloc, tokens, codes, item) {
        Ok(found) => Ok(Items::from_vec(found)),
        Err(fault) => Err(fault),
    }
}

/// The same, as a list.
pub fn list<T: Drop, F: Fn(&mut Cursor<'_>) -> Result<T, Fault>>(
    alloc: Global,
    tokens: &mut Cursor<'_>,
    codes: &[u8],
    item: F,
) -> Result<List<T>, Fault>
    requires { F.IsAlwaysCallable item }
    ensures { (p : Parser Token T) → Follows p (F.pre item) (F.post item) → Reads (many codes.now p tokens.old.rest.now) result tokens.new.rest.now }
{
    match turns(alloc, tokens, codes, item) {
        Ok(found) => Ok(List::of(found)),
        Err(fault) => Err(fault),
    }
}

/// Reads an item where one of these codes comes.
#[tactic(auto, unfolding(grammar_laws::specs::Readers::either, grammar_laws::specs::Readers::and_then))]
pub fn maybe<T: Drop, F: Fn(&mut Cursor<'_>) -> Result<T, Fault>>(
    tokens: &mut Cursor<'_>,
    codes: &[u8],
    item: F,
) -> Result<Option<T>, Fault>
    requires { F.IsAlwaysCallable item }
    ensures { (p : Parser Token T) → Follows p (F.pre item) (F.post item) → Reads (maybe codes.now p tokens.old.rest.now) result tokens.new.rest.now }
{
    if !tokens.begins(codes) {
        return Ok(None);
    }
    let found = item(tokens)?;
    Ok(Some(found))
}
