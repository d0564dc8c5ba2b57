//! What a `post` stands for, read as a value.

ghost use Rattle.std.specs.Prelude.{◌≡◌, IfOk, Ok as Given};
ghost use Rattle.vera_ast.specs.declared.typed.expr.TypedExpr.TheVariants as expr;
ghost use Rattle.vera_ast.specs.declared.typed.types.ValueType.TheVariants as value_type;
ghost use Rattle.typing_rules.specs.Answers.{Answers};
ghost use Rattle.typing_rules.specs.Heads as spec;
ghost use Rattle.typing_rules.specs.declared.head.Head.TheVariants as head;

use crate::heads::{cut_of, cut_type, is_output, number, read, signal_type, whole_type};
use four_state::{NoMemory, Text};
use std::alloc::Global;
use typing_rules::head::{Cut, Head, Typed, Whole};
use vera_ast::{Direction, FrontError, Number, TypedExpr, TypedSignalName, ValueType};
use vera_names::codes::{WRONG_SIGNAL, WRONG_TYPE, refuse, refused};
use vera_names::numbers::is_nothing;

/// Whether it is the literal `0`.
pub fn is_zero(number: &Number) -> bool
    ensures { result ≡ spec.is_zero number.now }
{
    number.is_decimal && is_nothing(number)
}

/// A string literal with its type.
pub fn str_value(text: Text) -> Typed
    ensures { result ≡ spec.typed (expr.Str text) value_type.Str }
{
    Typed {
        expr: TypedExpr::Str(text),
        of: ValueType::Str,
    }
}

/// The value of a variable, field or element, with its type.
pub fn whole_value(whole: Whole) -> Typed
    ensures { result ≡ spec.typed (spec.read whole) (spec.whole_type whole) }
{
    let of = whole_type(&whole);
    Typed {
        expr: read(whole),
        of,
    }
}

/// Bits of a value, with their type.
pub fn cut_value(alloc: Global, value: TypedExpr, cut: Cut) -> Result<Typed, NoMemory>
    ensures { IfOk result (λ bits. bits ≡ spec.typed (spec.cut_of value cut) (value_type.Vector (spec.cut_type cut))) }
{
    let of = ValueType::Vector(cut_type(&cut));
    Ok(Typed {
        expr: cut_of(alloc, value, cut)?,
        of,
    })
}

/// Bits of a variable, field or element, read.
fn part_value(alloc: Global, whole: Whole, cut: Cut) -> Result<Typed, FrontError>
    ensures { Answers (Given (spec.typed (spec.cut_of (spec.read whole) cut) (value_type.Vector (spec.cut_type cut)))) result }
{
    Ok(cut_value(alloc, read(whole), cut)?)
}

/// The sample of a signal, which is no output.
#[tactic(auto, using(crate::proofs::ValueSteps::sample_wrong, crate::proofs::ValueSteps::sample_right))]
fn sample(line: u32, signal: TypedSignalName, direction: Direction) -> Result<Typed, FrontError>
    ensures { Answers (spec.value_of line (head.Signal signal direction)) result }
{
    if is_output(direction) {
        return Err(refused(WRONG_SIGNAL, line));
    }
    Ok(Typed {
        expr: TypedExpr::Sample(signal),
        of: signal_type(signal),
    })
}

/// Bits of the sample of a signal, which is no output.
#[tactic(auto, using(crate::proofs::ValueSteps::sample_part_wrong, crate::proofs::ValueSteps::sample_part_right))]
fn sample_part(
    alloc: Global,
    line: u32,
    signal: TypedSignalName,
    direction: Direction,
    cut: Cut,
) -> Result<Typed, FrontError>
    ensures { Answers (spec.value_of line (head.SignalPart signal direction cut)) result }
{
    if is_output(direction) {
        return refuse(cut, WRONG_SIGNAL, line);
    }
    Ok(cut_value(alloc, TypedExpr::Sample(signal), cut)?)
}

/// The value of what a `post` stands for: an output signal isn't read, and what isn't called or used by element is no
/// value.
#[tactic(auto, unfolding(typing_rules::specs::Heads::value_of, typing_rules::specs::Checked::refuse))]
pub fn value_of(alloc: Global, line: u32, head: Head) -> Result<Typed, FrontError>
    ensures { Answers (spec.value_of line head) result }
{
    match head {
        Head::Number(literal) => Ok(number(&literal)),
        Head::Str(text) => Ok(str_value(text)),
        Head::Value(value) => Ok(value),
        Head::Whole(whole) => Ok(whole_value(whole)),
        Head::Part(whole, cut) => part_value(alloc, whole, cut),
        Head::Signal(signal, direction) => sample(line, signal, direction),
        Head::SignalPart(signal, direction, cut) => {
            sample_part(alloc, line, signal, direction, cut)
        }
        head => refuse(head, WRONG_TYPE, line),
    }
}
