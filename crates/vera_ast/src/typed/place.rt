ghost use Rattle.std.specs.Prelude.{◌≡◌};
ghost use Rattle.vera_ast.specs.ExprTypes.{place_type};

use super::expr::TypedExpr;
use super::names::{TypedSignalName, TypedVariable, VariablePlace};
use super::types::{ArrayLength, ValueType, VectorType, Width};
use sqlite_items::Boxed;

/// What can be assigned, or stands for its variable as an argument.
#[cycle(typed_expr)]
#[derive(Drop)]
pub enum TypedPlace {
    Variable(TypedVariable),
    Field(TypedField),
    Element(TypedElement),
    /// `vector[index]`: one bit of a vector that is a variable, a field or an element.
    Bit(Boxed<TypedPlace>, Boxed<TypedExpr>),
    /// `vector[high:low]`: bits of such a vector.
    Bits(Boxed<TypedPlace>, BitRange),
}

impl TypedPlace {
    /// Its type.
    pub fn of(&self) -> ValueType
        ensures { result ≡ place_type self.now }
    {
        match self {
            TypedPlace::Variable(variable) => variable.of,
            TypedPlace::Field(field) => field.of,
            TypedPlace::Element(element) => element.of,
            TypedPlace::Bit(_, _) => ValueType::Vector(VectorType::Bits(Width::one())),
            TypedPlace::Bits(_, range) => ValueType::Vector(VectorType::Bits(range.width)),
        }
    }
}

/// `object.field`, or a field of `this`, that is no array.
#[cycle(typed_expr)]
#[derive(Drop)]
pub struct TypedField {
    pub object: Boxed<TypedExpr>,
    /// Its number among the fields of the object's class, the ancestors' first, from 0 in text order.
    pub number: u32,
    pub of: ValueType,
}

/// `array[index]`.
#[cycle(typed_expr)]
#[derive(Drop)]
pub struct TypedElement {
    pub array: TypedArray,
    pub length: ArrayLength,
    pub index: Boxed<TypedExpr>,
    /// The type of the array's elements.
    pub of: ValueType,
}

/// A name that stands for an array.
#[cycle(typed_expr)]
#[derive(Drop)]
pub enum TypedArray {
    Variable(VariablePlace),
    /// A field of an object: the field's number among the fields of the object's class, the ancestors' first.
    Field(Boxed<TypedExpr>, u32),
}

/// `[high:low]`: so many bits, and the number of the lowest.
#[derive(Clone, Copy, PartialEq, Eq)]
pub struct BitRange {
    pub low: u32,
    pub width: Width,
}
