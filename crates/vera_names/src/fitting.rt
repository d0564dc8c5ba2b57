//! Types of values: which are vectors, which are the same, and what fits what.

ghost use Rattle.std.specs.Prelude.{◌≡◌};
ghost use Rattle.typing_rules.specs.Types as spec;
ghost use Rattle.typing_rules.specs.Operators as operators;

use vera_ast::{ChainOperator, ValueType, VectorType, Width};

/// The width of so many bits, 1 to 128.
#[tactic(auto, unfolding(typing_rules::specs::Types::width_from))]
pub fn width_from(bits: u32) -> Option<Width>
    ensures { result ≡ spec.width_from bits }
{
    if bits == 0 || bits > 128 {
        return None;
    }
    Some(Width { bits: bits as u8 })
}

/// Whether an operator reads it as a vector.
pub fn is_vector(of: ValueType) -> bool
    ensures { result ≡ spec.is_vector of }
{
    matches!(of, ValueType::Vector(_) | ValueType::Enumeration(_))
}

fn same_vector(left: VectorType, right: VectorType) -> bool
    ensures { result ≡ spec.same_vector left right }
{
    match (left, right) {
        (VectorType::Integer, VectorType::Integer) => true,
        (VectorType::Bits(left), VectorType::Bits(right)) => left.bits == right.bits,
        _ => false,
    }
}

/// Whether it is the very same type: the same kind and width, the same enumeration, class or group.
pub fn same_type(left: ValueType, right: ValueType) -> bool
    ensures { result ≡ spec.same_type left right }
{
    match (left, right) {
        (ValueType::Vector(left), ValueType::Vector(right)) => same_vector(left, right),
        (ValueType::Enumeration(left), ValueType::Enumeration(right))
        | (ValueType::Class(left), ValueType::Class(right))
        | (ValueType::Group(left), ValueType::Group(right)) => left == right,
        (ValueType::Str, ValueType::Str)
        | (ValueType::Event, ValueType::Event)
        | (ValueType::Null, ValueType::Null) => true,
        _ => false,
    }
}

/// The parent of a class, where it has one.
fn parent_of(parents: &[Option<u32>], class: u32) -> Option<u32>
    ensures { result ≡ spec.parent_of parents.now class }
{
    *parents.get(class as usize)?
}

/// Whether one class is the other or has it as an ancestor.
#[tactic(auto, unfolding(typing_rules::specs::Types::descends))]
pub fn descends(parents: &[Option<u32>], class: u32, ancestor: u32) -> bool
    ensures { result ≡ spec.descends parents.now class ancestor }
{
    let mut below = class;
    for _step in 0..parents.len() {
        if below == ancestor {
            return true;
        }
        match parent_of(parents, below) {
            Some(parent) => below = parent,
            None => return false,
        }
    }
    below == ancestor
}

/// Whether a value of the first type fits a variable of the second. `parents` has the parent of each class.
pub fn fits(parents: &[Option<u32>], value: ValueType, variable: ValueType) -> bool
    ensures { result ≡ spec.fits parents.now value variable }
{
    match (value, variable) {
        (ValueType::Vector(_) | ValueType::Enumeration(_), ValueType::Vector(_))
        | (ValueType::Str, ValueType::Str)
        | (ValueType::Event, ValueType::Event)
        | (ValueType::Null, ValueType::Class(_)) => true,
        (ValueType::Enumeration(value), ValueType::Enumeration(variable)) => value == variable,
        (ValueType::Class(value), ValueType::Class(variable)) => descends(parents, value, variable),
        _ => false,
    }
}

/// Whether two objects can be compared: one of their classes descends from the other, or one is `null`.
pub fn are_related(parents: &[Option<u32>], left: ValueType, right: ValueType) -> bool
    ensures { result ≡ spec.are_related parents.now left right }
{
    match (left, right) {
        (ValueType::Null, ValueType::Null | ValueType::Class(_))
        | (ValueType::Class(_), ValueType::Null) => true,
        (ValueType::Class(left), ValueType::Class(right)) => {
            descends(parents, left, right) || descends(parents, right, left)
        }
        _ => false,
    }
}

fn is_shift(operator: ChainOperator) -> bool
    ensures { result ≡ operators.is_shift operator }
{
    matches!(
        operator,
        ChainOperator::ShiftLeft | ChainOperator::ShiftRight
    )
}

fn is_equality(operator: ChainOperator) -> bool
    ensures { result ≡ operators.is_equality operator }
{
    matches!(operator, ChainOperator::Equal | ChainOperator::NotEqual)
}

/// Between vectors: the left one's type for a shift, else the wider one's width, an integer where both are.
fn vectors_work_in(operator: ChainOperator, left: VectorType, right: VectorType) -> ValueType
    ensures { result ≡ operators.vectors_work_in operator left right }
{
    if is_shift(operator) {
        ValueType::Vector(left)
    } else {
        ValueType::Vector(left.common(right))
    }
}

/// The type in which strings or related objects are compared: that of the first that isn't `null`.
fn compared(parents: &[Option<u32>], left: ValueType, right: ValueType) -> Option<ValueType>
    ensures { result ≡ operators.compared parents.now left right }
{
    match (left, right) {
        (ValueType::Str, ValueType::Str) => Some(ValueType::Str),
        (ValueType::Null, of) if are_related(parents, left, right) => Some(of),
        (ValueType::Class(_), _) if are_related(parents, left, right) => Some(left),
        _ => None,
    }
}

/// The type in which an operator works between these two; None where it has no such operands.
#[tactic(auto, unfolding(typing_rules::specs::Operators::works_in))]
pub fn works_in(
    parents: &[Option<u32>],
    left: ValueType,
    operator: ChainOperator,
    right: ValueType,
) -> Option<ValueType>
    ensures { result ≡ operators.works_in parents.now left operator right }
{
    match (left.vector(), right.vector()) {
        (Some(left), Some(right)) => Some(vectors_work_in(operator, left, right)),
        _ if is_equality(operator) => compared(parents, left, right),
        _ => None,
    }
}
