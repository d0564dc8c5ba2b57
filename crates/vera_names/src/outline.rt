//! What a file declares, as all its bodies see it.

ghost use Rattle.std.specs.Prelude.{◌≡◌, ◌++◌, ◌∷◌, [], IfOk, slice_get};
ghost use Rattle.std.specs.Option.{option_copied};
ghost use Rattle.typing_rules.specs.Calls as calls;
ghost use Rattle.vera_names.specs.Named.{signal_in};
ghost use Rattle.typing_rules.specs.Posts as posts;

use crate::scope::note;
use four_state::{NoMemory, Text};
use std::alloc::Global;
use std::collections::HashMap;
use std::marker::Model;
use typing_rules::names::{KnownSignal, Meaning, Routine};
use vera_ast::{Direction, TypedSignalKind, TypedSignalName};

/// The signals of one interface, in text order, found by their names.
#[derive(Drop)]
pub struct Signals<'a> {
    signals: Vec<KnownSignal>,
    /// Where each name stands first.
    places: HashMap<&'a [u8], usize>,
}

impl<'a> Model for Signals<'a> {
    ghost use Rattle.std.specs.Prelude.{List};
    ghost use Rattle.std.specs.HashMap.{get_by};
    ghost use Rattle.std.specs.Str.{bytes_eq};
    ghost use Rattle.typing_rules.specs.declared.names.KnownSignal.{KnownSignal};
    ghost use Rattle.vera_names.specs.Named.{signal_names, FindsFirst};

    ghost Value = { List KnownSignal };

    ghost view = { λ s. s.signals.items };

    ghost invariant = { λ s. FindsFirst (signal_names s.signals.items) (λ q. get_by (λ k. bytes_eq q k.now) s.places) };
}

/// The signal at a place.
fn signal_at(signals: &[KnownSignal], place: usize) -> Option<&KnownSignal>
    ensures { option_copied result ≡ slice_get signals.now place }
{
    signals.get(place)
}

impl<'a> Signals<'a> {
    /// No signals; it takes no memory.
    pub fn new(alloc: Global) -> Signals<'a>
        ensures { result ≡ [] }
    {
        Signals {
            signals: Vec::new(alloc),
            places: HashMap::new(alloc),
        }
    }

    /// The signals with one more.
    pub fn with(
        self,
        alloc: Global,
        name: &'a [u8],
        is: TypedSignalName,
        direction: Direction,
        kind: TypedSignalKind,
    ) -> Result<Signals<'a>, NoMemory>
        ensures { IfOk result (λ s. s ≡ self.entry ++ record { name = name.now; is = is; direction = direction; kind = kind } ∷ []) }
    {
        let Signals {
            mut signals,
            mut places,
        } = self;
        note(&mut places, name, signals.len())?;
        signals.push(KnownSignal {
            name: Text::from_slice(alloc, name)?,
            is,
            direction,
            kind,
        })?;
        Ok(Signals { signals, places })
    }

    /// The signal of a name.
    pub fn named(&self, name: &[u8]) -> Option<&KnownSignal>
        ensures { option_copied result ≡ posts.signal_named self.now name.now }
    {
        let place = *self.places.get(name)?;
        signal_at(self.signals.as_slice(), place)
    }

    /// The signals in text order.
    pub fn as_slice(&self) -> &[KnownSignal]
        ensures { result.now ≡ self.now }
    {
        self.signals.as_slice()
    }
}

/// What the file declares, as all bodies see it.
#[derive(Drop)]
pub struct FileOutline<'a> {
    /// The parent of each class, by its number.
    classes: Vec<Option<u32>>,
    /// The signals of each interface.
    interfaces: Vec<Signals<'a>>,
    tasks: Vec<Routine>,
    functions: Vec<Routine>,
}

impl<'a> Model for FileOutline<'a> {
    ghost use Rattle.typing_rules.specs.declared.context.Outline.{Outline};

    ghost Value = { Outline };

    ghost view = { λ o. record { classes = o.classes.items; interfaces = o.interfaces.items; tasks = o.tasks.items; functions = o.functions.items } };
}

impl<'a> FileOutline<'a> {
    /// What a file declares: the parent of each class, the signals of each interface, the tasks and the functions, each
    /// in text order.
    pub fn new(
        classes: Vec<Option<u32>>,
        interfaces: Vec<Signals<'a>>,
        tasks: Vec<Routine>,
        functions: Vec<Routine>,
    ) -> FileOutline<'a>
        ensures { result ≡ record { classes = classes.items; interfaces = interfaces.entry.items; tasks = tasks.items; functions = functions.items } }
    {
        FileOutline {
            classes,
            interfaces,
            tasks,
            functions,
        }
    }

    /// The parent of each class, by its number.
    pub fn classes(&self) -> &[Option<u32>]
        ensures { result.now ≡ self.now.classes }
    {
        self.classes.as_slice()
    }

    /// The signal of a name behind the name of an interface.
    pub fn signal_named(&self, interface: u32, name: &[u8]) -> Option<&KnownSignal>
        ensures { option_copied result ≡ signal_in self.now interface name.now }
    {
        self.interfaces.get(interface as usize)?.named(name)
    }

    /// The task or function that a name stands for.
    pub fn routine_of(&self, means: Meaning) -> Option<&Routine>
        ensures { option_copied result ≡ calls.routine_of self.now means }
    {
        match means {
            Meaning::Task(number) => self.tasks.get(number as usize),
            Meaning::Function(number) => self.functions.get(number as usize),
            _ => None,
        }
    }
}
