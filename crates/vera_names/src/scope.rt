//! What the names in sight stand for.

ghost use Rattle.std.specs.Prelude.{◌≡◌, ◌++◌, ◌∷◌, [], length, Some as SomeOf, IfOk, OnOk};
ghost use Rattle.std.specs.HashMap.{get_by};
ghost use Rattle.std.specs.Str.{bytes_eq};
ghost use Rattle.typing_rules.specs.declared.names.Meaning.{Meaning as Means};
ghost use Rattle.typing_rules.specs.Scopes as spec;
ghost use Rattle.vera_names.specs.Named.{declared_as, meaning_at, seen, FindsFirst};

use four_state::NoMemory;
use std::alloc::Global;
use std::collections::HashMap;
use std::marker::Model;
use typing_rules::names::Meaning;

/// A name and what it stands for.
#[derive(Clone, Copy)]
pub struct Named<'a> {
    pub name: &'a [u8],
    pub means: Meaning,
}

/// The names of one scope, in text order. Of names that are the same the first counts.
#[derive(Drop)]
pub struct Scope<'a> {
    names: Vec<Named<'a>>,
    /// Where each name stands first.
    places: HashMap<&'a [u8], usize>,
}

impl<'a> Model for Scope<'a> {
    ghost use Rattle.std.specs.Prelude.{List};
    ghost use Rattle.std.specs.HashMap.{get_by};
    ghost use Rattle.std.specs.Str.{bytes_eq};
    ghost use Rattle.typing_rules.specs.declared.names.Declared.{Declared};
    ghost use Rattle.vera_names.specs.Named.{shown, FindsFirst};

    ghost Value = { List Declared };

    ghost view = { λ s. shown s.names.items };

    ghost invariant = { λ s. FindsFirst (shown s.names.items) (λ q. get_by (λ k. bytes_eq q k.now) s.places) };
}

/// What the name at a place stands for.
fn meaning_at(names: &[Named<'_>], place: usize) -> Option<Meaning>
    ensures { result ≡ meaning_at names.now (SomeOf place) }
{
    Some(names.get(place)?.means)
}

/// Keeps where a name stands, unless it stands before.
pub fn note<'a>(
    places: &mut HashMap<&'a [u8], usize>,
    name: &'a [u8],
    place: usize,
) -> Result<(), NoMemory>
    ensures { OnOk result ((names : spec.Scope) → (means : Means) → place ≡ length names → FindsFirst names (λ q. get_by (λ k. bytes_eq q k.now) places.old) → FindsFirst (names ++ declared_as name.now means ∷ []) (λ q. get_by (λ k. bytes_eq q k.now) places.new)) }
{
    if places.contains_key(name) {
        return Ok(());
    }
    places.insert(name, place)?;
    Ok(())
}

impl<'a> Scope<'a> {
    /// A scope without names; it takes no memory.
    pub fn new(alloc: Global) -> Scope<'a>
        ensures { result ≡ [] }
    {
        Scope {
            names: Vec::new(alloc),
            places: HashMap::new(alloc),
        }
    }

    /// The scope with one more name.
    pub fn with(self, name: &'a [u8], means: Meaning) -> Result<Scope<'a>, NoMemory>
        ensures { IfOk result (λ s. s ≡ self.entry ++ declared_as name.now means ∷ []) }
    {
        let Scope {
            mut names,
            mut places,
        } = self;
        note(&mut places, name, names.len())?;
        names.push(Named { name, means })?;
        Ok(Scope { names, places })
    }

    /// How many names it has.
    pub fn len(&self) -> usize
        ensures { result ≡ length self.now }
    {
        self.names.len()
    }

    /// What a name stands for in this scope.
    pub fn meaning(&self, name: &[u8]) -> Option<Meaning>
        ensures { result ≡ spec.meaning_in self.now name.now }
    {
        let place = *self.places.get(name)?;
        meaning_at(self.names.as_slice(), place)
    }
}

/// The scopes in sight, the innermost first.
#[derive(Drop)]
pub struct Scopes<'a> {
    scopes: Vec<&'a Scope<'a>>,
}

impl<'a> Model for Scopes<'a> {
    ghost use Rattle.std.specs.Prelude.{List};
    ghost use Rattle.typing_rules.specs.declared.names.Declared.{Declared};
    ghost use Rattle.vera_names.specs.Named.{seen};

    ghost Value = { List (List Declared) };

    ghost view = { λ s. seen s.scopes.items };
}

impl<'a> Scopes<'a> {
    /// One scope, with none around it.
    pub fn outermost(alloc: Global, scope: &'a Scope<'a>) -> Result<Scopes<'a>, NoMemory>
        ensures { IfOk result (λ scopes. scopes ≡ scope.now ∷ []) }
    {
        Ok(Scopes {
            scopes: vec![in alloc; scope]?,
        })
    }

    /// A scope, and those around it.
    pub fn inside(
        alloc: Global,
        scope: &'a Scope<'a>,
        outer: &Scopes<'a>,
    ) -> Result<Scopes<'a>, NoMemory>
        ensures { IfOk result (λ scopes. scopes ≡ scope.now ∷ outer.now) }
    {
        let mut scopes = Vec::new(alloc);
        scopes.push(scope)?;
        scopes.extend_from_slice(outer.scopes.as_slice())?;
        Ok(Scopes { scopes })
    }

    /// What a name stands for: the innermost scope that has it says so.
    pub fn meaning(&self, name: &[u8]) -> Option<Meaning>
        ensures { result ≡ spec.meaning_of self.now name.now }
    {
        meaning_among(self.scopes.as_slice(), name)
    }

    /// What a name in front of arguments stands for: a function, where it is one, and not the variable of its result.
    pub fn callee(&self, name: &[u8]) -> Option<Meaning>
        ensures { result ≡ spec.callee_of self.now name.now }
    {
        callee_among(self.scopes.as_slice(), name)
    }
}

fn as_callee(found: Option<Meaning>) -> Option<Meaning>
    ensures { result ≡ spec.as_callee found }
{
    match found {
        Some(Meaning::Result(_)) => None,
        _ => found,
    }
}

#[tactic(auto, unfolding(typing_rules::specs::Scopes::meaning_of))]
fn meaning_among(scopes: &[&Scope<'_>], name: &[u8]) -> Option<Meaning>
    ensures { result ≡ spec.meaning_of (seen scopes.now) name.now }
{
    for scope in scopes {
        let found = scope.meaning(name);
        if found.is_some() {
            return found;
        }
    }
    None
}

#[tactic(auto, unfolding(typing_rules::specs::Scopes::callee_of))]
fn callee_among(scopes: &[&Scope<'_>], name: &[u8]) -> Option<Meaning>
    ensures { result ≡ spec.callee_of (seen scopes.now) name.now }
{
    for scope in scopes {
        let called = as_callee(scope.meaning(name));
        if called.is_some() {
            return called;
        }
    }
    None
}
