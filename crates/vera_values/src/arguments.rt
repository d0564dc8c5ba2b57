//! Arguments: their types, which kinds there are, and which can be assigned.

ghost use Rattle.std.specs.Prelude.{◌≡◌};
ghost use Rattle.typing_rules.specs.Arguments as spec;
ghost use Rattle.typing_rules.specs.Formats as formats;

use crate::heads::{is_element, is_event, whole_type};
use typing_rules::head::Argument;
use typing_rules::names::Expected;
use typing_rules::words::Want;
use vera_ast::{ConversionLetter, ValueType};
use vera_names::fitting::{fits, is_vector, same_type};

/// The type of an argument that has one.
pub fn type_of(argument: &Argument) -> Option<ValueType>
    ensures { result ≡ spec.type_of argument.now }
{
    match argument {
        Argument::Value(value) => Some(value.of),
        Argument::Whole(whole) => Some(whole_type(whole)),
        Argument::NoVariable(of) => Some(*of),
        Argument::Literal(_) => Some(ValueType::Str),
        Argument::Zero | Argument::Mode(_) => None,
    }
}

/// Whether it is a string.
pub fn is_str(of: ValueType) -> bool
    ensures { result ≡ spec.is_str of }
{
    matches!(of, ValueType::Str)
}

/// Whether it is the type of a class's objects.
pub fn is_class(of: ValueType) -> bool
    ensures { result ≡ spec.is_class of }
{
    matches!(of, ValueType::Class(_))
}

/// Whether it is the type of `null`.
pub fn is_null(of: ValueType) -> bool
    ensures { result ≡ spec.is_null of }
{
    matches!(of, ValueType::Null)
}

/// Whether a mailbox holds it.
pub fn is_item(of: ValueType) -> bool
    ensures { result ≡ spec.is_item of }
{
    is_vector(of) || is_str(of) || is_class(of) || is_null(of)
}

/// Whether a conversion prints values of this type.
pub fn prints(letter: ConversionLetter, of: ValueType) -> bool
    ensures { result ≡ formats.prints letter of }
{
    match letter {
        ConversionLetter::Str => is_str(of),
        ConversionLetter::Decimal | ConversionLetter::Binary | ConversionLetter::Hexadecimal =>
            is_vector(of),
    }
}

/// Whether it is a whole variable, field or element that can be assigned.
pub fn can_be_set(argument: &Argument) -> bool
    ensures { result ≡ spec.can_be_set argument.now }
{
    match argument {
        Argument::Whole(whole) => !is_event(whole_type(whole)),
        _ => false,
    }
}

/// Whether `wait_var` takes it: a whole variable or field.
pub fn can_be_watched(argument: &Argument) -> bool
    ensures { result ≡ spec.can_be_watched argument.now }
{
    match argument {
        Argument::Whole(whole) => !is_event(whole_type(whole)) && !is_element(whole),
        _ => false,
    }
}

/// Whether an argument can be assigned, where its call assigns it.
pub fn is_settable(want: Want, argument: &Argument) -> bool
    ensures { result ≡ spec.is_settable want argument.now }
{
    match want {
        Want::StrVariable | Want::ItemVariable | Want::ObjectVariable | Want::Variable => {
            can_be_set(argument)
        }
        Want::WholeVariable => can_be_watched(argument),
        _ => true,
    }
}

/// Whether a value of this type, if there is one, is taken by a parameter of a user's task or function. A `var`
/// parameter takes the very same type.
pub fn suits(parents: &[Option<u32>], parameter: &Expected, of: Option<ValueType>) -> bool
    ensures { result ≡ spec.suits parents.now parameter.now of }
{
    match of {
        Some(of) if parameter.is_var => same_type(of, parameter.of),
        Some(of) => fits(parents, of, parameter.of),
        None => false,
    }
}
