//! What a call takes of the arguments that it is given.

ghost use Rattle.std.specs.Prelude.{◌≡◌, ◌||◌, if◌then◌else◌, Ok as Given};
ghost use Rattle.vera_ast.specs.declared.typed.types.ValueType.TheVariants as value_type;
ghost use Rattle.typing_rules.specs.Answers.{Answers};
ghost use Rattle.typing_rules.specs.Arguments as arguments;
ghost use Rattle.typing_rules.specs.Heads as spec;
ghost use Rattle.typing_rules.specs.Types as types;
ghost use Rattle.vera_calls.specs.Wanting.{modes_told};
ghost use Rattle.typing_rules.specs.declared.head.Argument.TheVariants as argument;
ghost use Rattle.typing_rules.specs.declared.head.Head.TheVariants as head;

use crate::formats::is_format;
use crate::operands::is_mode;
use crate::wanted::Wanted;
use four_state::Text;
use std::alloc::Global;
use typing_rules::head::{Argument, Cut, Head, Whole};
use typing_rules::words::{Mode, Want};
use vera_ast::{Direction, FrontError, Number, TypedSignalName, ValueType};
use vera_names::codes::{WRONG_TYPE, refused};
use vera_names::fitting::is_vector;
use vera_values::arguments::{is_class, is_item, is_null, is_str, type_of};
use vera_values::heads::{cut_type, is_event, number, signal_type};
use vera_values::values::{is_zero, str_value, value_of, whole_value};

/// Whether a variable is wanted: what is given isn't read.
pub fn wants_variable(want: Want) -> bool
    ensures { result ≡ spec.wants_variable want }
{
    matches!(
        want,
        Want::StrVariable
            | Want::ItemVariable
            | Want::ObjectVariable
            | Want::WholeVariable
            | Want::Variable
    )
}

/// Whether a mode word stands there as its call's mode.
fn mode_wanted(wanted: &Wanted<'_>, want: Want, mode: Mode) -> bool
    ensures { result ≡ spec.mode_wanted (modes_told wanted.now) want mode }
{
    match want {
        Want::Mode | Want::ModeOrEvent => wanted.takes(mode),
        Want::Check => matches!(mode, Mode::Check),
        _ => false,
    }
}

fn str_argument(want: Want, text: Text) -> Argument
    ensures { result ≡ spec.str_argument want text }
{
    match want {
        Want::Format => Argument::Literal(text),
        _ => Argument::Value(str_value(text)),
    }
}

/// A number where the literal `0` is wanted.
fn zero_argument(literal: &Number) -> Argument
    ensures { result ≡ (if spec.is_zero literal.now then argument.Zero else argument.Value (spec.number literal.now)) }
{
    if is_zero(literal) {
        Argument::Zero
    } else {
        Argument::Value(number(literal))
    }
}

fn number_argument(want: Want, literal: &Number) -> Argument
    ensures { result ≡ spec.number_argument want literal.now }
{
    match want {
        Want::Zero => zero_argument(literal),
        _ => Argument::Value(number(literal)),
    }
}

/// What is read.
#[tactic(auto, using(crate::proofs::GivenSteps::value_wrong, crate::proofs::GivenSteps::value_right))]
fn value_argument(alloc: Global, line: u32, head: Head) -> Result<Argument, FrontError>
    ensures { Answers (spec.value_argument line head) result }
{
    Ok(Argument::Value(value_of(alloc, line, head)?))
}

fn whole_argument(want: Want, whole: Whole) -> Argument
    ensures { result ≡ (if spec.wants_variable want then argument.Whole whole else argument.Value (spec.typed (spec.read whole) (spec.whole_type whole))) }
{
    if wants_variable(want) {
        Argument::Whole(whole)
    } else {
        Argument::Value(whole_value(whole))
    }
}

fn part_argument(
    alloc: Global,
    want: Want,
    line: u32,
    whole: Whole,
    cut: Cut,
) -> Result<Argument, FrontError>
    ensures { Answers (if spec.wants_variable want then Given (argument.NoVariable (value_type.Vector (spec.cut_type cut))) else spec.value_argument line (head.Part whole cut)) result }
{
    if wants_variable(want) {
        let of = cut_type(&cut);
        drop((whole, cut));
        return Ok(Argument::NoVariable(ValueType::Vector(of)));
    }
    value_argument(alloc, line, Head::Part(whole, cut))
}

fn signal_argument(
    alloc: Global,
    want: Want,
    line: u32,
    signal: TypedSignalName,
    direction: Direction,
) -> Result<Argument, FrontError>
    ensures { Answers (if spec.wants_variable want then Given (argument.NoVariable (spec.signal_type signal)) else spec.value_argument line (head.Signal signal direction)) result }
{
    if wants_variable(want) {
        return Ok(Argument::NoVariable(signal_type(signal)));
    }
    value_argument(alloc, line, Head::Signal(signal, direction))
}

fn signal_part_argument(
    alloc: Global,
    want: Want,
    line: u32,
    signal: TypedSignalName,
    direction: Direction,
    cut: Cut,
) -> Result<Argument, FrontError>
    ensures { Answers (if spec.wants_variable want then Given (argument.NoVariable (value_type.Vector (spec.cut_type cut))) else spec.value_argument line (head.SignalPart signal direction cut)) result }
{
    if wants_variable(want) {
        let of = cut_type(&cut);
        drop(cut);
        return Ok(Argument::NoVariable(ValueType::Vector(of)));
    }
    value_argument(alloc, line, Head::SignalPart(signal, direction, cut))
}

#[tactic(auto, unfolding(typing_rules::specs::Heads::argument, typing_rules::specs::Checked::refuse))]
fn mode_argument(
    wanted: &Wanted<'_>,
    want: Want,
    line: u32,
    mode: Mode,
) -> Result<Argument, FrontError>
    ensures { Answers (spec.argument (modes_told wanted.now) want line (head.Mode mode)) result }
{
    if mode_wanted(wanted, want, mode) {
        Ok(Argument::Mode(mode))
    } else {
        Err(refused(WRONG_TYPE, line))
    }
}

/// What is given as an argument where something is wanted. Where a variable is wanted nothing is read.
#[tactic(auto, unfolding(typing_rules::specs::Heads::argument))]
pub fn argument(
    alloc: Global,
    wanted: &Wanted<'_>,
    want: Want,
    line: u32,
    head: Head,
) -> Result<Argument, FrontError>
    ensures { Answers (spec.argument (modes_told wanted.now) want line head) result }
{
    match head {
        Head::Mode(mode) => mode_argument(wanted, want, line, mode),
        Head::Str(text) => Ok(str_argument(want, text)),
        Head::Number(literal) => Ok(number_argument(want, &literal)),
        Head::Whole(whole) => Ok(whole_argument(want, whole)),
        Head::Part(whole, cut) => part_argument(alloc, want, line, whole, cut),
        Head::Signal(signal, direction) => signal_argument(alloc, want, line, signal, direction),
        Head::SignalPart(signal, direction, cut) => {
            signal_part_argument(alloc, want, line, signal, direction, cut)
        }
        _ => value_argument(alloc, line, head),
    }
}

/// Whether it is a string literal that is a format.
fn is_format_literal(argument: &Argument) -> bool
    ensures { result ≡ arguments.is_format argument.now }
{
    match argument {
        Argument::Literal(text) => is_format(text.as_slice()),
        _ => false,
    }
}

/// Whether it is the literal `0` where that is wanted.
fn is_zero_literal(argument: &Argument) -> bool
    ensures { result ≡ arguments.is_zero_literal argument.now }
{
    matches!(argument, Argument::Zero)
}

/// Whether its type is a vector's.
fn gives_vector(argument: &Argument) -> bool
    ensures { result ≡ arguments.of_type types.is_vector (arguments.type_of argument.now) }
{
    match type_of(argument) {
        Some(of) => is_vector(of),
        None => false,
    }
}

/// Whether its type is an event's.
fn gives_event(argument: &Argument) -> bool
    ensures { result ≡ arguments.of_type spec.is_event (arguments.type_of argument.now) }
{
    match type_of(argument) {
        Some(of) => is_event(of),
        None => false,
    }
}

/// Whether it is of the type of an item of a mailbox.
fn gives_item(argument: &Argument) -> bool
    ensures { result ≡ arguments.of_type arguments.is_item (arguments.type_of argument.now) }
{
    match type_of(argument) {
        Some(of) => is_item(of),
        None => false,
    }
}

/// Whether it is an object or `null`.
fn gives_object(argument: &Argument) -> bool
    ensures { result ≡ arguments.of_type (λ of. arguments.is_class of || arguments.is_null of) (arguments.type_of argument.now) }
{
    match type_of(argument) {
        Some(of) => is_class(of) || is_null(of),
        None => false,
    }
}

/// Whether its type is a class.
fn gives_class(argument: &Argument) -> bool
    ensures { result ≡ arguments.of_type arguments.is_class (arguments.type_of argument.now) }
{
    match type_of(argument) {
        Some(of) => is_class(of),
        None => false,
    }
}

/// Whether its type is a string's.
fn gives_str(argument: &Argument) -> bool
    ensures { result ≡ arguments.of_type arguments.is_str (arguments.type_of argument.now) }
{
    match type_of(argument) {
        Some(of) => is_str(of),
        None => false,
    }
}

/// Whether an argument is of the kind that is wanted. What a conversion prints is a rule of the format.
pub fn meets(want: Want, argument: &Argument) -> bool
    ensures { result ≡ arguments.meets want argument.now }
{
    match want {
        Want::Mode | Want::Check => is_mode(argument),
        Want::ModeOrEvent => is_mode(argument) || gives_event(argument),
        Want::Zero => is_zero_literal(argument),
        Want::Vector => gives_vector(argument),
        Want::Event => gives_event(argument),
        Want::Item | Want::ItemVariable => gives_item(argument),
        Want::Object => gives_object(argument),
        Want::Format => is_format_literal(argument),
        Want::StrVariable => gives_str(argument),
        Want::ObjectVariable => gives_class(argument),
        Want::Printed | Want::Value | Want::WholeVariable | Want::Variable => true,
    }
}
