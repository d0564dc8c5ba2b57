//! What types operators give.
ghost use Rattle.std.specs.Prelude.{◌≡◌};
ghost use Rattle.vera_ast.specs.Types.{bit_type, operand_type, chain_type, unary_type};

use super::types::{ValueType, VectorType, Width};
use crate::tree::expressions::{ChainOperator, UnaryOperator};

/// What a logical value, a comparison and a reduction give.
fn one_bit() -> ValueType
    ensures { result ≡ bit_type }
{
    ValueType::Vector(VectorType::Bits(Width::one()))
}

impl ValueType {
    /// Its type as an operand: an enumeration is an `integer`.
    pub fn operand(self) -> ValueType
        ensures { result ≡ operand_type self }
    {
        match self {
            ValueType::Enumeration(_) => ValueType::Vector(VectorType::Integer),
            ValueType::Vector(_)
            | ValueType::Str
            | ValueType::Event
            | ValueType::Class(_)
            | ValueType::Group(_)
            | ValueType::Null => self,
        }
    }
}

impl ChainOperator {
    /// The type of its result, where it works in a type.
    pub fn gives(self, works_in: ValueType) -> ValueType
        ensures { result ≡ chain_type self works_in }
    {
        match self {
            ChainOperator::LogicalOr
            | ChainOperator::LogicalAnd
            | ChainOperator::Equal
            | ChainOperator::NotEqual
            | ChainOperator::CaseEqual
            | ChainOperator::CaseNotEqual
            | ChainOperator::WildEqual
            | ChainOperator::WildNotEqual
            | ChainOperator::Less
            | ChainOperator::LessEqual
            | ChainOperator::Greater
            | ChainOperator::GreaterEqual => one_bit(),
            ChainOperator::Or
            | ChainOperator::Xor
            | ChainOperator::Xnor
            | ChainOperator::And
            | ChainOperator::ShiftLeft
            | ChainOperator::ShiftRight
            | ChainOperator::Add
            | ChainOperator::Subtract
            | ChainOperator::Multiply
            | ChainOperator::Divide
            | ChainOperator::Remainder => works_in,
        }
    }
}

impl UnaryOperator {
    /// The type of its result for an operand of a type.
    pub fn gives(self, operand: ValueType) -> ValueType
        ensures { result ≡ unary_type self operand }
    {
        match self {
            UnaryOperator::Not | UnaryOperator::Minus | UnaryOperator::Plus => operand.operand(),
            UnaryOperator::LogicalNot
            | UnaryOperator::And
            | UnaryOperator::Or
            | UnaryOperator::Xor
            | UnaryOperator::Nand
            | UnaryOperator::Nor
            | UnaryOperator::Xnor => one_bit(),
        }
    }
}
