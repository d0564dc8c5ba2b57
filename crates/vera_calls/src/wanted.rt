//! What calls want as their arguments, place by place.

ghost use Rattle.std.specs.Prelude.{◌≡◌, false, if◌then◌else◌};
ghost use Rattle.std.specs.Option.{option_copied};
ghost use Rattle.typing_rules.specs.Calls as calls;
ghost use Rattle.typing_rules.specs.Signatures as spec;
ghost use Rattle.vera_calls.specs.Wanting.{wants_told, modes_told, wants_from};
ghost use Rattle.typing_rules.specs.declared.words.Want.TheVariants as want;

use crate::signatures::takes;
use typing_rules::head::Head;
use typing_rules::names::{Expected, Routine};
use typing_rules::words::{BuiltIn, Mode, Want};
use vera_names::outline::FileOutline;

/// What a call wants as its arguments.
#[derive(Clone, Copy)]
pub enum Wanted<'a> {
    /// No arguments: what is called is no call that has any.
    Nothing,
    BuiltIn(BuiltIn),
    /// What the parameters of a user's task or function take.
    User(&'a [Expected]),
}

static FORMAT: [Want; 1] = [Want::Format];

static STR_VARIABLE_FORMAT: [Want; 2] = [Want::StrVariable, Want::Format];

static VECTOR: [Want; 1] = [Want::Vector];

static SEMAPHORE: [Want; 4] = [Want::Mode, Want::Zero, Want::Vector, Want::Vector];

static MODE_TWO_VECTORS: [Want; 3] = [Want::Mode, Want::Vector, Want::Vector];

static TWO_VECTORS: [Want; 2] = [Want::Vector, Want::Vector];

static VECTOR_ITEM: [Want; 2] = [Want::Vector, Want::Item];

static MODE_VECTOR_ITEM: [Want; 3] = [Want::Mode, Want::Vector, Want::ItemVariable];

static MODE_VECTOR: [Want; 2] = [Want::Mode, Want::Vector];

static MODE: [Want; 1] = [Want::Mode];

static MODE_OR_EVENT: [Want; 1] = [Want::ModeOrEvent];

static OBJECTS: [Want; 3] = [Want::ObjectVariable, Want::Object, Want::Check];

static ALLOCATION: [Want; 3] = [Want::Mode, Want::Zero, Want::Vector];

static MODE_EVENT: [Want; 2] = [Want::Mode, Want::Event];

static NOTHING: [Want; 0] = [];

/// What a built-in call wants first.
fn first_of(call: BuiltIn) -> &'static [Want]
    ensures { result.now ≡ (spec.wants_of call).first }
{
    match call {
        BuiltIn::Printf => &FORMAT,
        BuiltIn::Sprintf => &STR_VARIABLE_FORMAT,
        BuiltIn::Exit | BuiltIn::RegionExit => &VECTOR,
        BuiltIn::Alloc => &SEMAPHORE,
        BuiltIn::SemaphoreGet => &MODE_TWO_VECTORS,
        BuiltIn::SemaphorePut => &TWO_VECTORS,
        BuiltIn::MailboxPut => &VECTOR_ITEM,
        BuiltIn::MailboxGet => &MODE_VECTOR_ITEM,
        BuiltIn::RegionEnter => &MODE_VECTOR,
        BuiltIn::Sync => &MODE,
        BuiltIn::Trigger => &MODE_OR_EVENT,
        BuiltIn::CastAssign => &OBJECTS,
        BuiltIn::Flag | BuiltIn::GetCycle | BuiltIn::WaitChild | BuiltIn::WaitVar => &NOTHING,
    }
}

/// What any further arguments of a built-in call are.
fn more_of(call: BuiltIn) -> Option<Want>
    ensures { result ≡ (spec.wants_of call).more }
{
    match call {
        BuiltIn::Printf | BuiltIn::Sprintf => Some(Want::Printed),
        BuiltIn::RegionEnter | BuiltIn::RegionExit => Some(Want::Vector),
        BuiltIn::Sync | BuiltIn::Trigger => Some(Want::Event),
        BuiltIn::WaitVar => Some(Want::WholeVariable),
        _ => None,
    }
}

/// What is wanted at a place, from 0: a surplus argument is a value.
fn at(first: &[Want], more: Option<Want>, place: usize) -> Want
    ensures { result ≡ spec.next_want (wants_from (record { first = first.now; more = more }) place) }
{
    match first.get(place) {
        Some(want) => *want,
        None => more.unwrap_or(Want::Value),
    }
}

/// What a built-in call wants at a place, from 0.
fn built_in_at(call: BuiltIn, place: usize) -> Want
    ensures { result ≡ spec.next_want (wants_from (spec.wants_of call) place) }
{
    at(first_of(call), more_of(call), place)
}

/// What a built-in call in this mode wants at a place, from 0.
pub fn wanted_in(call: BuiltIn, mode: Option<Mode>, place: usize) -> Want
    ensures { result ≡ spec.next_want (wants_from (spec.wants_in call mode) place) }
{
    match (call, mode) {
        (BuiltIn::Alloc, Some(Mode::Semaphore)) => built_in_at(call, place),
        (BuiltIn::Alloc, _) => at(&ALLOCATION, None, place),
        (BuiltIn::Sync, Some(Mode::Check)) => at(&MODE_EVENT, None, place),
        _ => built_in_at(call, place),
    }
}

/// What a parameter takes.
fn taken_by(parameter: &Expected) -> Want
    ensures { result ≡ (if parameter.now.is_var then want.Variable else want.Value) }
{
    if parameter.is_var {
        Want::Variable
    } else {
        Want::Value
    }
}

/// What the parameter at a place takes.
#[tactic(auto, using(crate::proofs::Wants::parameter_none))]
fn parameter_at(parameters: &[Expected], place: usize) -> Want
    ensures { result ≡ spec.next_want (wants_from (spec.wants_by parameters.now) place) }
{
    match parameters.get(place) {
        Some(parameter) => taken_by(parameter),
        None => Want::Value,
    }
}

impl<'a> Wanted<'a> {
    /// What is wanted at a place, from 0.
    pub fn at(&self, place: usize) -> Want
        ensures { result ≡ spec.next_want (wants_from (wants_told self.now) place) }
    {
        match self {
            Wanted::Nothing => Want::Value,
            Wanted::BuiltIn(call) => built_in_at(*call, place),
            Wanted::User(parameters) => parameter_at(parameters, place),
        }
    }

    /// Whether a mode word is one of the call's.
    pub fn takes(&self, mode: Mode) -> bool
        ensures { result ≡ modes_told self.now mode }
    {
        match self {
            Wanted::BuiltIn(call) => takes(*call, mode),
            _ => false,
        }
    }
}

/// What the parameters of a task or function take, where there is one.
fn wanted_by(routine: Option<&Routine>) -> Wanted<'_>
    ensures wants { wants_told result ≡ calls.wanted_by (option_copied routine.entry) }
    ensures modes { modes_told result ≡ (λ mode. false) }
{
    match routine {
        Some(routine) => Wanted::User(routine.parameters.as_slice()),
        None => Wanted::Nothing,
    }
}

/// What a call of this head wants as its arguments, and its mode words.
#[tactic(auto, unfolding(typing_rules::specs::Calls::wanted))]
pub fn wanted_of<'a>(outline: &'a FileOutline<'_>, head: &Head) -> Wanted<'a>
    ensures wants { wants_told result ≡ calls.wanted outline.now head.now }
    ensures modes { modes_told result ≡ calls.modes_taken head.now }
{
    match head {
        Head::Word(call) => Wanted::BuiltIn(*call),
        Head::Named(means) => wanted_by(outline.routine_of(*means)),
        _ => Wanted::Nothing,
    }
}
