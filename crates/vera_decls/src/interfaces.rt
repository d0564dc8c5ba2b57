//! Interfaces: the widths of their signals, and which signals they may have.

ghost use Rattle.std.specs.Prelude.{◌≡◌, filter, IfOk};
ghost use Rattle.typing_rules.specs.Answers.{Answers};
ghost use Rattle.typing_rules.specs.Checked.{each};
ghost use Rattle.typing_rules.specs.Interfaces as spec;

use four_state::List;
use std::alloc::Global;
use vera_ast::{
    Direction, FrontError, Interface, Range, Signal, SignalForm, SignalTime, Skew, TypedInterface,
    TypedSignal, TypedSignalKind, TypedSignalName, Width,
};
use vera_names::codes::{WRONG_SIGNAL, refused};
use vera_names::data_types::range;
use vera_names::numbers::{following, is_nothing};
use vera_names::outline::Signals;
use vera_names::scope::Scopes;

/// The width of a signal: one bit, where it has no range.
pub fn signal_width(
    alloc: Global,
    scopes: &Scopes<'_>,
    bits: &Option<Range>,
) -> Result<Width, FrontError>
    ensures { Answers (spec.signal_width scopes.now bits.now) result }
{
    match bits {
        None => Ok(Width::one()),
        Some(bits) => range(alloc, scopes, bits),
    }
}

fn kind_at(time: SignalTime) -> TypedSignalKind
    ensures { result ≡ spec.kind_at time }
{
    match time {
        SignalTime::PositiveHold => TypedSignalKind::PositiveHold,
        SignalTime::PositiveSample => TypedSignalKind::PositiveSample,
        SignalTime::NegativeHold => TypedSignalKind::NegativeHold,
        SignalTime::NegativeSample => TypedSignalKind::NegativeSample,
    }
}

/// When a signal is sampled or driven.
pub fn kind_of(form: &SignalForm) -> TypedSignalKind
    ensures { result ≡ spec.kind_of form.now }
{
    match form {
        SignalForm::Clock => TypedSignalKind::Clock,
        SignalForm::Timed(time, _) => kind_at(*time),
    }
}

fn is_below_zero(skew: &Option<Skew>) -> bool
    ensures { result ≡ spec.is_below_zero skew.now }
{
    match skew {
        None => false,
        Some(skew) => skew.is_negative && !is_nothing(&skew.amount),
    }
}

fn is_above_zero(skew: &Option<Skew>) -> bool
    ensures { result ≡ spec.is_above_zero skew.now }
{
    match skew {
        None => false,
        Some(skew) => !skew.is_negative && !is_nothing(&skew.amount),
    }
}

/// Whether a signal of this direction can't have this kind: an output is PHOLD without a negative skew; an input is
/// CLOCK, or PSAMPLE without a positive skew.
fn is_wrong_form(direction: Direction, form: &SignalForm) -> bool
    ensures { result ≡ spec.is_wrong_form direction form.now }
{
    match (direction, form) {
        (Direction::Output, SignalForm::Timed(SignalTime::PositiveHold, skew)) => is_below_zero(
            skew,
        ),
        (Direction::Input, SignalForm::Clock) => false,
        (Direction::Input, SignalForm::Timed(SignalTime::PositiveSample, skew)) => is_above_zero(
            skew,
        ),
        _ => true,
    }
}

/// A signal with its width, where its direction and kind go together.
fn typed_signal(
    alloc: Global,
    scopes: &Scopes<'_>,
    signal: &Signal,
) -> Result<TypedSignal, FrontError>
    ensures { Answers (spec.typed_signal scopes.now signal.now) result }
{
    let width = signal_width(alloc, scopes, &signal.range)?;
    if is_wrong_form(signal.direction, &signal.kind.form) {
        return Err(refused(WRONG_SIGNAL, signal.line));
    }
    Ok(TypedSignal {
        line: signal.line,
        direction: signal.direction,
        width,
        name: signal.name.copy()?,
        kind: kind_of(&signal.kind.form),
    })
}

fn is_clock_kind(kind: TypedSignalKind) -> bool
    ensures { result ≡ spec.is_clock_kind kind }
{
    matches!(kind, TypedSignalKind::Clock)
}

/// Whether it is an input of one bit.
fn is_good_clock(signal: &TypedSignal) -> bool
    ensures { result ≡ spec.is_good_clock signal.now }
{
    matches!(signal.direction, Direction::Input) && signal.width.bits == 1
}

/// Whether exactly one signal is a CLOCK, and it is an input of one bit.
fn has_one_clock(signals: &[TypedSignal]) -> bool
    ensures { result ≡ spec.is_one_clock (filter (λ s. spec.is_clock_kind s.kind) signals.now) }
{
    let mut found = None;
    for signal in signals {
        if is_clock_kind(signal.kind) {
            if found.is_some() {
                return false;
            }
            found = Some(is_good_clock(signal));
        }
    }
    found == Some(true)
}

/// The signals of an interface, each with its width.
fn typed_signals(
    alloc: Global,
    scopes: &Scopes<'_>,
    signals: &[Signal],
) -> Result<List<TypedSignal>, FrontError>
    ensures { Answers (each (spec.typed_signal scopes.now) signals.now) result }
{
    let mut typed = Vec::new(alloc);
    for signal in signals {
        let next = typed_signal(alloc, scopes, signal)?;
        typed.push(next)?;
    }
    Ok(List::of(typed))
}

/// An interface, where each of its signals is right and exactly one is its CLOCK.
pub fn typed_interface(
    alloc: Global,
    scopes: &Scopes<'_>,
    interface: &Interface,
) -> Result<TypedInterface, FrontError>
    ensures { Answers (spec.typed_interface scopes.now interface.now) result }
{
    let signals = typed_signals(alloc, scopes, interface.signals.as_slice())?;
    if !has_one_clock(signals.as_slice()) {
        return Err(refused(WRONG_SIGNAL, interface.line));
    }
    Ok(TypedInterface {
        line: interface.line,
        name: interface.name.copy()?,
        signals,
    })
}

/// The signals of an interface as its uses see them, numbered from a number on. More of them than a number has room
/// for are answered as want of memory.
pub fn known_signals<'a>(
    alloc: Global,
    scopes: &Scopes<'_>,
    from: u32,
    signals: &'a [Signal],
) -> Result<Signals<'a>, FrontError>
    ensures { Answers (spec.known_signals scopes.now from signals.now) result }
{
    let mut known = Signals::new(alloc);
    let mut number = from;
    for signal in signals {
        let width = signal_width(alloc, scopes, &signal.range)?;
        let is = TypedSignalName { number, width };
        let kind = kind_of(&signal.kind.form);
        known = known.with(alloc, signal.name.as_slice(), is, signal.direction, kind)?;
        number = following(number)?;
    }
    Ok(known)
}
