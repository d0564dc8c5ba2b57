//! The signals of interfaces.

ghost use Rattle.std.specs.Prelude.{◌≡◌, ◌≤◌, ◌++◌, ◌∷◌, [], List as ListOf, IfOk};
ghost use Rattle.vera_ast.specs.declared.tree.interfaces.Signal.{Signal as SignalOf};
ghost use Rattle.typing_rules.specs.Declarations as spec;
ghost use Rattle.typing_rules.specs.FileNames.{output_names};
ghost use Rattle.typing_rules.specs.Interfaces as interfaces;
ghost use Rattle.typing_rules.specs.Scopes.{Name};
ghost use Rattle.vera_decls.specs.Walks.{Walks, OutputsStand, signal_part};
ghost use Rattle.vera_names.specs.NameSets.{SameNames};

use super::counting::one_more;
use crate::interfaces::signal_width;
use four_state::NoMemory;
use std::alloc::Global;
use vera_ast::{Direction, FrontError, Signal};
use vera_names::codes::{DECLARED_TWICE, PAST_LIMIT, refused};
use vera_names::name_sets::{has_name, with_name};
use vera_names::scope::{Scope, Scopes};

/// The signals so far: the names of this interface's, the names of all outputs, how many signals there are, and how
/// many names the file declares.
#[derive(Drop)]
pub struct Signalled<'a> {
    pub names: Scope<'a>,
    pub outputs: Scope<'a>,
    pub signals: u32,
    pub count: u32,
}

/// Whether a signal is an output with the name of an output before it.
fn is_second_output(outputs: &Scope<'_>, signal: &Signal) -> bool
    ensures { (before : ListOf SignalOf) → SameNames (output_names before) outputs.now → result ≡ spec.is_second_output before signal.now }
{
    match signal.direction {
        Direction::Output => has_name(outputs, signal.name.as_slice()),
        Direction::Input => false,
    }
}

/// The names of all outputs, with that of one more signal.
fn with_output<'a>(outputs: Scope<'a>, signal: &'a Signal) -> Result<Scope<'a>, NoMemory>
    ensures { IfOk result (λ new. (before : ListOf SignalOf) → SameNames (output_names before) outputs.entry → SameNames (output_names (before ++ signal.now ∷ [])) new) }
{
    match signal.direction {
        Direction::Output => with_name(outputs, signal.name.as_slice()),
        Direction::Input => Ok(outputs),
    }
}

/// The name of a signal: no other signal of its interface has it, nor another output, if it is one. There are 4,096
/// signals at most.
fn signal_name<'a>(
    names: Scope<'a>,
    outputs: Scope<'a>,
    signals: u32,
    count: u32,
    signal: &'a Signal,
) -> Result<Signalled<'a>, FrontError>
    ensures { (before : ListOf SignalOf) → (stand : ListOf Name) → OutputsStand before outputs.entry signals → SameNames stand names.entry → Walks (λ s. s.count) (λ s. OutputsStand (before ++ signal.now ∷ []) s.outputs s.signals × SameNames (signal.now.name ∷ stand) s.names) count (signal_part before stand signal.now ∷ []) result }
{
    if has_name(&names, signal.name.as_slice()) {
        return Err(refused(DECLARED_TWICE, signal.line));
    }
    if is_second_output(&outputs, signal) {
        return Err(refused(DECLARED_TWICE, signal.line));
    }
    if signals >= 4096 {
        return Err(refused(PAST_LIMIT, signal.line));
    }
    let count = one_more(count, signal.line)?;
    let names = with_name(names, signal.name.as_slice())?;
    let outputs = with_output(outputs, signal)?;
    Ok(Signalled {
        names,
        outputs,
        signals: signals + 1,
        count,
    })
}

/// One signal: its width, and its name.
fn signal<'a>(
    alloc: Global,
    scopes: &Scopes<'_>,
    stand: Signalled<'a>,
    signal: &'a Signal,
) -> Result<Signalled<'a>, FrontError>
    ensures { (before : ListOf SignalOf) → (names : ListOf Name) → stand.entry.count ≤ 65535 → OutputsStand before stand.entry.outputs stand.entry.signals → SameNames names stand.entry.names → Walks (λ s. s.count) (λ s. OutputsStand (before ++ signal.now ∷ []) s.outputs s.signals × SameNames (signal.now.name ∷ names) s.names) stand.entry.count (spec.rules signal.now.line (spec.unit (interfaces.signal_width scopes.now signal.now.range)) ∷ signal_part before names signal.now ∷ []) result }
{
    signal_width(alloc, scopes, &signal.range)?;
    let Signalled {
        names,
        outputs,
        signals,
        count,
    } = stand;
    signal_name(names, outputs, signals, count, signal)
}

/// The signals of one interface, behind so many others and outputs with these names.
pub fn signals<'a>(
    alloc: Global,
    scopes: &Scopes<'_>,
    outputs: Scope<'a>,
    signals: u32,
    count: u32,
    list: &'a [Signal],
) -> Result<Signalled<'a>, FrontError>
    requires { count ≤ 65535 }
    ensures { (before : ListOf SignalOf) → OutputsStand before outputs.entry signals → Walks (λ s. s.count) (λ s. OutputsStand (before ++ list.now) s.outputs s.signals) count (spec.signal_parts scopes.now before [] list.now) result }
{
    let mut walked = Signalled {
        names: Scope::new(alloc),
        outputs,
        signals,
        count,
    };
    for next in list {
        walked = signal(alloc, scopes, walked, next)?;
    }
    Ok(walked)
}
