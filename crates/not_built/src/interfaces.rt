//! Interfaces: directions and names are built, ranges as far as their bounds are, and kinds without a skew by a based literal.

ghost use Rattle.std.specs.Prelude.{◌≡◌};
ghost use Rattle.not_built.specs.Interfaces as spec;
ghost use Rattle.not_built.specs.Lines.{first};
ghost use Rattle.not_built.specs.Passing.{first_in};

use crate::expressions::{in_expr, in_number};
use vera_ast::{Interface, Range, Signal, SignalForm, SignalKind};

/// The bounds of a range, the high one first.
#[tactic(auto, using(crate::proofs::InterfaceFirsts::range_first))]
fn in_range(range: &Range) -> Option<u32>
    ensures { result ≡ first (spec.range_lines range.now) }
{
    match in_expr(&range.high) {
        Some(line) => Some(line),
        None => in_expr(&range.low),
    }
}

fn in_optional(range: &Option<Range>) -> Option<u32>
    ensures { result ≡ first (spec.optional_lines range.now) }
{
    match range {
        Some(range) => in_range(range),
        None => None,
    }
}

/// A kind whose skew is a based literal isn't built.
#[tactic(auto, unfolding(crate::specs::Interfaces::kind_lines))]
fn in_kind(kind: &SignalKind) -> Option<u32>
    ensures { result ≡ first (spec.kind_lines kind.now) }
{
    match &kind.form {
        SignalForm::Timed(_, Some(skew)) => in_number(kind.line, &skew.amount),
        SignalForm::Timed(_, None) | SignalForm::Clock => None,
    }
}

#[tactic(auto, using(crate::proofs::InterfaceFirsts::signal_first))]
fn in_signal(signal: &Signal) -> Option<u32>
    ensures { result ≡ first (spec.signal_lines signal.now) }
{
    match in_optional(&signal.range) {
        Some(line) => Some(line),
        None => in_kind(&signal.kind),
    }
}

fn in_signals(signals: &[Signal]) -> Option<u32>
    ensures { result ≡ first_in spec.signal_lines signals.now }
{
    for signal in signals {
        if let Some(line) = in_signal(signal) {
            return Some(line);
        }
    }
    None
}

/// The line of the first construct in an interface that isn't built.
#[tactic(auto, using(crate::proofs::Firsts::first_each))]
pub fn in_interface(interface: &Interface) -> Option<u32>
    ensures { result ≡ first (spec.interface_lines interface.now) }
{
    in_signals(interface.signals.as_slice())
}
