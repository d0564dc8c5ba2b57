//! What the productions of items share: names, words that may stand or not, and lists.

ghost use Rattle.std.specs.Prelude.{◌≡◌, ◌∷◌, ◌++◌, [], OnOk, IfErr};
ghost use Rattle.grammar_laws.specs.Readers.{Reads, Parser, grown};
ghost use Rattle.grammar_laws.specs.declared.fault.Fault.TheVariants as fault;
ghost use Rattle.vera_ast.specs.declared.token.Token.{Token};
ghost use Rattle.parse_cursor.specs.Nesting.{Follows};
ghost use Rattle.parse_cursor.specs.TokenReading.{many};
ghost use Rattle.parse_cursor.specs.ListReading as reading;

use crate::cursor::Cursor;
use four_state::{List, Text};
use grammar_laws::Fault;
use sqlite_items::Items;
use std::alloc::Global;

/// Adds an item at the end.
pub fn push<T: Drop>(all: &mut List<T>, item: T) -> Result<(), Fault>
    ensures ok { OnOk result (all.new ≡ all.old ++ item ∷ []) }
    ensures refused { IfErr result (λ e. e ≡ fault.NoMemory) }
{
    match all.push(item) {
        Ok(()) => Ok(()),
        Err(_) => Err(Fault::NoMemory),
    }
}

/// Reads items behind those that were found, for as long as one of these codes comes.
pub fn more<T: Drop, F: Fn(&mut Cursor<'_>) -> Result<T, Fault>>(
    tokens: &mut Cursor<'_>,
    codes: &[u8],
    found: List<T>,
    item: F,
) -> Result<List<T>, Fault>
    requires { F.IsAlwaysCallable item }
    ensures { (p : Parser Token T) → Follows p (F.pre item) (F.post item) → Reads (grown found (many codes.now p tokens.old.rest.now)) result tokens.new.rest.now }
{
    let mut all = found;
    for _turn in 0..tokens.rest.len() {
        if !tokens.begins(codes) {
            return Ok(all);
        }
        let next = item(tokens)?;
        push(&mut all, next)?;
    }
    Ok(all)
}

/// Reads one item or more, for as long as one of these codes comes.
#[tactic(auto, unfolding(crate::specs::ListReading::some, grammar_laws::specs::Readers::and_then))]
pub fn some<T: Drop, F: Fn(&mut Cursor<'_>) -> Result<T, Fault>>(
    alloc: Global,
    tokens: &mut Cursor<'_>,
    codes: &[u8],
    item: F,
) -> Result<List<T>, Fault>
    requires { F.IsAlwaysCallable item }
    ensures { (p : Parser Token T) → Follows p (F.pre item) (F.post item) → Reads (reading.some codes.now p tokens.old.rest.now) result tokens.new.rest.now }
{
    let first = item(tokens)?;
    let mut found = List::empty(alloc);
    push(&mut found, first)?;
    more(tokens, codes, found, item)
}

/// The same, as items.
pub fn some_items<T: Drop, F: Fn(&mut Cursor<'_>) -> Result<T, Fault>>(
    alloc: Global,
    tokens: &mut Cursor<'_>,
    codes: &[u8],
    item: F,
) -> Result<Items<T>, Fault>
    requires { F.IsAlwaysCallable item }
    ensures { (p : Parser Token T) → Follows p (F.pre item) (F.post item) → Reads (reading.some codes.now p tokens.old.rest.now) result tokens.new.rest.now }
{
    match some(alloc, tokens, codes, item) {
        Ok(found) => Ok(Items::from_vec(found.into_vec())),
        Err(fault) => Err(fault),
    }
}

/// Reads this sign and then an item.
#[tactic(auto, unfolding(crate::specs::ListReading::after, grammar_laws::specs::Readers::and_then))]
pub fn after<T: Drop, F: Fn(&mut Cursor<'_>) -> Result<T, Fault>>(
    tokens: &mut Cursor<'_>,
    sign: u8,
    item: &F,
) -> Result<T, Fault>
    requires { F.IsAlwaysCallable item.now }
    ensures { (p : Parser Token T) → Follows p (F.pre item.now) (F.post item.now) → Reads (reading.after sign p tokens.old.rest.now) result tokens.new.rest.now }
{
    tokens.word(sign)?;
    item(tokens)
}

/// Reads one item or more, with this sign between them.
#[tactic(auto, unfolding(crate::specs::ListReading::listed, grammar_laws::specs::Readers::and_then))]
pub fn listed<T: Drop, F: Fn(&mut Cursor<'_>) -> Result<T, Fault>>(
    alloc: Global,
    tokens: &mut Cursor<'_>,
    sign: u8,
    item: F,
) -> Result<List<T>, Fault>
    requires { F.IsAlwaysCallable item }
    ensures { (p : Parser Token T) → Follows p (F.pre item) (F.post item) → Reads (reading.listed sign p tokens.old.rest.now) result tokens.new.rest.now }
{
    let first = item(tokens)?;
    let mut found = List::empty(alloc);
    push(&mut found, first)?;
    more(
        tokens,
        &[sign],
        found,
        |tokens: &mut Cursor<'_>| after(tokens, sign, &item),
    )
}

/// Takes a name, and gives its text.
#[tactic(auto, unfolding(crate::specs::ListReading::title, grammar_laws::specs::Readers::and_then))]
pub fn title(alloc: Global, tokens: &mut Cursor<'_>) -> Result<Text, Fault>
    ensures { Reads (reading.title tokens.old.rest.now) result tokens.new.rest.now }
{
    let name = tokens.name(alloc)?;
    Ok(name.text)
}

/// Takes a word that may stand there or not, and tells whether it does.
#[tactic(auto, unfolding(crate::specs::ListReading::flag, grammar_laws::specs::Readers::and_then, grammar_laws::specs::Readers::either))]
pub fn flag(tokens: &mut Cursor<'_>, word: u8) -> Result<bool, Fault>
    ensures { Reads (reading.flag word tokens.old.rest.now) result tokens.new.rest.now }
{
    if !tokens.begins(&[word]) {
        return Ok(false);
    }
    tokens.word(word)?;
    Ok(true)
}
