ghost use Rattle.std.specs.Prelude.{◌≡◌, length, Some};
ghost use Rattle.store_api.specs.declared.loc.Loc.TheVariants as locs;
ghost use Rattle.vera_ast.specs.declared.typed.types.ValueType.TheVariants.{Vector};
ghost use Rattle.vera_ast.specs.declared.typed.types.VectorType.TheVariants as types;
ghost use Rattle.vera_ast.specs.ExprTypes.{type_of};
ghost use Rattle.vera_ast.specs.Types.{chain_type};
ghost use Rattle.vera_meaning.specs.Expressions.{bits_at, place_of};
ghost use Rattle.vera_meaning.specs.Operators.{fitted, applied};
ghost use Rattle.plain_run.specs.Gives.{Gives, HoldsAs};
ghost use Rattle.plain_run.specs.Values.{contents_of, found_at};

use super::types::{is_signed, unknown, width};
use super::values::Values;
use four_state::{Bit3, Vec4};
use vera_ast::{
    ChainOperator, TypedExpr, TypedLink, TypedSignalName, TypedVariable, ValueType, VectorType,
};

/// A value with its type.
#[derive(Clone, Copy)]
pub struct Typed {
    pub of: ValueType,
    pub bits: Vec4,
}

impl Typed {
    ghost use Rattle.std.specs.Prelude.{◌≡◌};
    ghost use Rattle.vera_meaning.specs.Operators.{fitted};

    /// Its bits, cut or extended to the width of a type.
    pub fn fitted(&self, to: ValueType) -> Vec4
        ensures { result ≡ fitted self.now.of to self.now.bits }
    {
        self.bits.extend(width(to), is_signed(self.of))
    }
}

/// The value of an expression. No bit of one that isn't built is known.
pub fn value(expr: &TypedExpr, values: &Values) -> Typed
    ensures of { result.of ≡ type_of expr.now }
    ensures bits { Gives expr.now (contents_of values.now) result.bits }
{
    match expr {
        TypedExpr::Number(bits, of) => Typed {
            of: ValueType::Vector(*of),
            bits: *bits,
        },
        TypedExpr::Variable(variable) => Typed {
            of: variable.of,
            bits: read(variable, values),
        },
        TypedExpr::Sample(signal) => Typed {
            of: ValueType::Vector(VectorType::Bits(signal.width)),
            bits: sample(signal, values),
        },
        TypedExpr::Chain(first, links) => {
            let mut left = value(first.get(), values);
            for link in links.as_slice() {
                let right = value(&link.operand, values);
                left = combined(link, left, right);
            }
            left
        }
        _ => Typed {
            of: expr.of(),
            bits: unknown(expr.of()),
        },
    }
}

/// Whether a condition holds: its logical value is 1.
pub fn holds(condition: &TypedExpr, values: &Values) -> bool
    ensures { HoldsAs condition.now (contents_of values.now) result }
{
    match value(condition, values).bits.logic() {
        Bit3::One => true,
        Bit3::Zero => false,
        Bit3::X => false,
    }
}

/// A variable's value: all bits are x where it was never written, or isn't built.
fn read(variable: &TypedVariable, values: &Values) -> Vec4
    ensures { result ≡ bits_at variable.now.of (found_at (contents_of values.now) (place_of variable.now.place)) }
{
    match values.variable(variable.place) {
        Some(bits) => bits,
        None => unknown(variable.of),
    }
}

/// The latest sample of an input signal: all bits are x before any.
fn sample(signal: &TypedSignalName, values: &Values) -> Vec4
    ensures { result ≡ bits_at (Vector (types.Bits signal.now.width)) (contents_of values.now (locs.Sample signal.now.number)) }
{
    match values.sample(signal.number) {
        Some(bits) => bits,
        None => Vec4::all_x(signal.width.bits),
    }
}

/// What a link's operator gives for the value on its left and its operand.
fn combined(link: &TypedLink, left: Typed, right: Typed) -> Typed
    ensures of { result.of ≡ chain_type link.now.operator link.now.works_in }
    ensures bits { result.bits ≡ applied link.now.operator link.now.works_in (fitted left.of link.now.works_in left.bits) (fitted right.of link.now.works_in right.bits) }
{
    let a = left.fitted(link.works_in);
    let b = right.fitted(link.works_in);
    Typed {
        of: link.operator.gives(link.works_in),
        bits: apply(link.operator, link.works_in, a, b),
    }
}

/// What an operator gives for two operands of the width that it works in.
fn apply(operator: ChainOperator, works_in: ValueType, a: Vec4, b: Vec4) -> Vec4
    requires { length a ≡ length b }
    ensures { result ≡ applied operator works_in a b }
{
    let signed = is_signed(works_in);
    match operator {
        ChainOperator::Add => a.add(&b, signed),
        ChainOperator::Subtract => a.sub(&b, signed),
        ChainOperator::Less => a.less(&b, signed),
        ChainOperator::LessEqual => a.less_equal(&b, signed),
        ChainOperator::Greater => a.greater(&b, signed),
        ChainOperator::GreaterEqual => a.greater_equal(&b, signed),
        ChainOperator::Equal => a.equal(&b, signed),
        ChainOperator::NotEqual => a.not_equal(&b, signed),
        _ => unknown(operator.gives(works_in)),
    }
}
