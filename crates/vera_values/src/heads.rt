//! What a `post` stands for: its type, read as a value or taken as a place.

ghost use Rattle.std.specs.Prelude.{◌≡◌, IfOk};
ghost use Rattle.typing_rules.specs.Heads as spec;

use four_state::NoMemory;
use sqlite_items::Boxed;
use std::alloc::Global;
use typing_rules::head::{Cut, Typed, Whole};
use vera_ast::{
    Direction, Number, TypedExpr, TypedPlace, TypedSignalName, ValueType, VectorType, Width, with,
};
use vera_names::fitting::width_from;

/// The type of a number literal: an unsized decimal is an `integer`, any other one a bit vector.
pub fn number_type(number: &Number) -> VectorType
    ensures { result ≡ spec.number_type number.now }
{
    if number.is_decimal {
        return VectorType::Integer;
    }
    match width_from(u32::from(number.value.width())) {
        Some(width) => VectorType::Bits(width),
        None => VectorType::Bits(Width::one()),
    }
}

/// A number literal with its type.
pub fn number(number: &Number) -> Typed
    ensures { result ≡ spec.number number.now }
{
    let of = number_type(number);
    Typed {
        expr: TypedExpr::Number(number.value, of),
        of: ValueType::Vector(of),
    }
}

/// The type of a variable, field or element.
pub fn whole_type(whole: &Whole) -> ValueType
    ensures { result ≡ spec.whole_type whole.now }
{
    match whole {
        Whole::Variable(variable) => variable.of,
        Whole::Field(field) => field.of,
        Whole::Element(element) => element.of,
    }
}

/// The value of a variable, field or element.
pub fn read(whole: Whole) -> TypedExpr
    ensures { result ≡ spec.read whole }
{
    match whole {
        Whole::Variable(variable) => TypedExpr::Variable(variable),
        Whole::Field(field) => TypedExpr::Field(field),
        Whole::Element(element) => TypedExpr::Element(element),
    }
}

/// A variable, field or element that is assigned.
pub fn place(whole: Whole) -> TypedPlace
    ensures { result ≡ spec.place whole }
{
    match whole {
        Whole::Variable(variable) => TypedPlace::Variable(variable),
        Whole::Field(field) => TypedPlace::Field(field),
        Whole::Element(element) => TypedPlace::Element(element),
    }
}

/// The type of bits of a vector.
pub fn cut_type(cut: &Cut) -> VectorType
    ensures { result ≡ spec.cut_type cut.now }
{
    match cut {
        Cut::Bit(_) => VectorType::Bits(Width::one()),
        Cut::Bits(range) => VectorType::Bits(range.width),
    }
}

/// Bits of a value.
pub fn cut_of(alloc: Global, value: TypedExpr, cut: Cut) -> Result<TypedExpr, NoMemory>
    ensures { IfOk result (λ bits. bits ≡ spec.cut_of value cut) }
{
    let (cut, value) = with(cut, Boxed::new(alloc, value))?;
    match cut {
        Cut::Bit(index) => {
            let (value, index) = with(value, Boxed::new(alloc, index))?;
            Ok(TypedExpr::Bit(value, index))
        }
        Cut::Bits(range) => Ok(TypedExpr::Bits(value, range)),
    }
}

/// Bits of a variable, field or element that are assigned.
pub fn part_place(alloc: Global, whole: Whole, cut: Cut) -> Result<TypedPlace, NoMemory>
    ensures { IfOk result (λ bits. bits ≡ spec.part_place whole cut) }
{
    let (cut, target) = with(cut, Boxed::new(alloc, place(whole)))?;
    match cut {
        Cut::Bit(index) => {
            let (target, index) = with(target, Boxed::new(alloc, index))?;
            Ok(TypedPlace::Bit(target, index))
        }
        Cut::Bits(range) => Ok(TypedPlace::Bits(target, range)),
    }
}

/// The type of a signal.
pub fn signal_type(signal: TypedSignalName) -> ValueType
    ensures { result ≡ spec.signal_type signal }
{
    ValueType::Vector(VectorType::Bits(signal.width))
}

/// The expression of a value that may be missing.
pub fn expr_or_missing(value: Option<Typed>) -> Option<TypedExpr>
    ensures { result ≡ spec.expr_or_missing value }
{
    match value {
        Some(value) => Some(value.expr),
        None => None,
    }
}

/// Whether it is an output, which isn't read.
pub fn is_output(direction: Direction) -> bool
    ensures { result ≡ spec.is_output direction }
{
    matches!(direction, Direction::Output)
}

/// Whether it is an event, which isn't assigned.
pub fn is_event(of: ValueType) -> bool
    ensures { result ≡ spec.is_event of }
{
    matches!(of, ValueType::Event)
}

/// Whether it is an element of an array.
pub fn is_element(whole: &Whole) -> bool
    ensures { result ≡ spec.is_element whole.now }
{
    matches!(whole, Whole::Element(_))
}
