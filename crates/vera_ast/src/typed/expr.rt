ghost use Rattle.std.specs.Prelude.{◌≡◌};
ghost use Rattle.vera_ast.specs.ExprTypes.{type_of, type_behind};

use super::builtin::BuiltInFunction;
use super::invocation::{TypedCall, TypedNew};
use super::names::{EnumName, TypedSignalName, TypedVariable};
use super::place::{BitRange, TypedElement, TypedField, TypedPlace};
use super::types::{ValueType, VectorType, Width};
use crate::tree::expressions::{ChainOperator, UnaryOperator};
use four_state::{Text, Vec4};
use sqlite_items::{Boxed, Items};

/// An expression. Parentheses leave no trace, and a chain without an operator is its operand.
#[cycle(typed_expr)]
#[derive(Drop)]
pub enum TypedExpr {
    /// A literal with its type.
    Number(Vec4, VectorType),
    /// A string literal.
    Str(Text),
    EnumName(EnumName),
    Null,
    /// `this`, and the class that it stands in.
    This(u32),
    Variable(TypedVariable),
    Field(TypedField),
    Element(TypedElement),
    /// `value[index]`: one bit of a vector.
    Bit(Boxed<TypedExpr>, Boxed<TypedExpr>),
    /// `value[high:low]`: bits of a vector.
    Bits(Boxed<TypedExpr>, BitRange),
    /// `interface.signal`: the latest sample of an input signal.
    Sample(TypedSignalName),
    /// Operators of one level: the first operand, and the links that follow it, grouped from the left.
    Chain(Boxed<TypedExpr>, Items<TypedLink>),
    Unary(UnaryOperator, Boxed<TypedExpr>),
    Conditional(TypedConditional),
    /// `{ parts }`, and the type of the whole: a vector, or a string where all parts are strings.
    Concatenation(Items<TypedExpr>, ValueType),
    /// `{ count { parts } }`, and the type of the whole.
    Replication(u32, Items<TypedExpr>, ValueType),
    /// A call of a function or of a method that is one, and the type of its result.
    Call(TypedCall, ValueType),
    /// `new` of a class.
    New(TypedNew),
    /// `new` of a coverage group.
    NewGroup(u32),
    /// A built-in call that doesn't wait.
    BuiltIn {
        function: BuiltInFunction,
        operands: Items<TypedExpr>,
        target: Option<Boxed<TypedPlace>>,
    },
}

impl TypedExpr {
    /// Its type.
    pub fn of(&self) -> ValueType
        ensures { result ≡ type_of self.now }
    {
        match self {
            TypedExpr::Number(_, of) => ValueType::Vector(*of),
            TypedExpr::Str(_) => ValueType::Str,
            TypedExpr::EnumName(name) => ValueType::Enumeration(name.enumeration),
            TypedExpr::Null => ValueType::Null,
            TypedExpr::This(class) => ValueType::Class(*class),
            TypedExpr::Variable(variable) => variable.of,
            TypedExpr::Field(field) => field.of,
            TypedExpr::Element(element) => element.of,
            TypedExpr::Bit(_, _) => ValueType::Vector(VectorType::Bits(Width::one())),
            TypedExpr::Bits(_, range) => ValueType::Vector(VectorType::Bits(range.width)),
            TypedExpr::Sample(signal) => ValueType::Vector(VectorType::Bits(signal.width)),
            TypedExpr::Chain(first, links) => type_behind(links.as_slice(), first.get().of()),
            TypedExpr::Unary(operator, operand) => operator.gives(operand.get().of()),
            TypedExpr::Conditional(conditional) => ValueType::Vector(conditional.of),
            TypedExpr::Concatenation(_, of)
            | TypedExpr::Replication(_, _, of)
            | TypedExpr::Call(_, of) => *of,
            TypedExpr::New(new) => ValueType::Class(new.class),
            TypedExpr::NewGroup(group) => ValueType::Group(*group),
            TypedExpr::BuiltIn { .. } => ValueType::Vector(VectorType::Integer),
        }
    }
}

/// The type of a chain: that of its first operand, or of its last operator's result.
fn type_behind(links: &[TypedLink], first: ValueType) -> ValueType
    ensures { result ≡ type_behind links.now first }
{
    let mut of = first;
    for link in links {
        of = link.operator.gives(link.works_in);
    }
    of
}

/// An operator of a chain, and the operand on its right.
#[cycle(typed_expr)]
#[derive(Drop)]
pub struct TypedLink {
    pub operator: ChainOperator,
    /// The type in which the operator works. Between vectors it has the wider operand's width, and is signed where
    /// both are; for a shift it is the left operand's. A comparison of strings or objects works in their type.
    pub works_in: ValueType,
    pub operand: TypedExpr,
}

/// `condition ? when_true : when_false`.
#[cycle(typed_expr)]
#[derive(Drop)]
pub struct TypedConditional {
    pub condition: Boxed<TypedExpr>,
    pub when_true: Boxed<TypedExpr>,
    pub when_false: Boxed<TypedExpr>,
    /// The type of its value: the wider side's width, and an `integer` where both sides are.
    pub of: VectorType,
}
