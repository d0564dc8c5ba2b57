//! The number of a constant, if it is one. Between its parts any whole number may come.

ghost use Rattle.std.specs.Prelude.{◌≡◌, IfOk};
ghost use Rattle.four_state.specs.Numbers as numbers;
ghost use Rattle.typing_rules.specs.Constants as spec;
ghost use Rattle.vera_names.specs.NumberLists as lists;

use crate::scope::Scopes;
use four_state::{NoMemory, Vec4};
use std::alloc::Global;
use typing_rules::names::Meaning;
use vera_ast::{ChainOperator, Expr, Link, Number, PrimaryForm};
use whole_number::Whole;

/// The largest constant.
const LARGEST: u32 = 2_147_483_647;

/// The number of a vector, where bits that are x or z count as 0.
fn number_of(vector: &Vec4) -> u128
    ensures { result ≡ numbers.number_of vector.now }
{
    vector.ones() & !vector.unknown()
}

/// The number of an unsized decimal.
fn decimal(alloc: Global, literal: &Number) -> Result<Option<Whole>, NoMemory>
    ensures { IfOk result (λ number. number ≡ spec.decimal literal.now) }
{
    if !literal.is_decimal {
        return Ok(None);
    }
    Ok(Some(Whole::from_u128(alloc, number_of(&literal.value))?))
}

/// The number of a name of an enumeration.
fn enum_value(alloc: Global, means: Option<Meaning>) -> Result<Option<Whole>, NoMemory>
    ensures { IfOk result (λ number. number ≡ spec.enum_value means) }
{
    match means {
        Some(Meaning::EnumName(name)) => {
            Ok(Some(Whole::from_u128(alloc, u128::from(name.value))?))
        }
        _ => Ok(None),
    }
}

/// The number that an operator gives, where it is `+`, `-` or `*`.
fn given(operator: ChainOperator, left: Whole, right: Whole) -> Result<Option<Whole>, NoMemory>
    ensures { IfOk result (λ number. number ≡ spec.combined operator left right) }
{
    match operator {
        ChainOperator::Add => Ok(Some(left.plus(right)?)),
        ChainOperator::Subtract => Ok(Some(left.minus(right)?)),
        ChainOperator::Multiply => Ok(Some(left.times(right)?)),
        _ => Ok(None),
    }
}

/// The same of operands that may be no numbers.
fn combined(
    operator: ChainOperator,
    left: Option<Whole>,
    right: Option<Whole>,
) -> Result<Option<Whole>, NoMemory>
    ensures { IfOk result (λ number. number ≡ spec.both left right (spec.combined operator)) }
{
    match (left, right) {
        (Some(left), Some(right)) => given(operator, left, right),
        _ => Ok(None),
    }
}

/// The number of an expression, where it is a constant but for its range.
#[tactic(auto, using(crate::proofs::NumberViews::conditional_number, crate::proofs::NumberViews::chain_number, crate::proofs::NumberViews::unary_number, crate::proofs::NumberViews::postfix_number))]
#[cycle(constant_numbers)]
pub fn number_in(alloc: Global, scopes: &Scopes<'_>, expr: &Expr) -> Result<Option<Whole>, NoMemory>
    ensures { IfOk result (λ number. number ≡ spec.number_in scopes.now expr.now) }
{
    match expr {
        Expr::Chain { first, links, .. } => {
            let left = number_in(alloc, scopes, first.get())?;
            number_after(alloc, scopes, left, links.as_slice())
        }
        Expr::Postfix(postfix) => {
            if !postfix.suffixes.as_slice().is_empty() {
                return Ok(None);
            }
            number_of_form(alloc, scopes, &postfix.primary.form)
        }
        Expr::Conditional(_) | Expr::Unary(_) => Ok(None),
    }
}

/// The number of a chain, from what stands left of some of its links on.
#[cycle(constant_numbers)]
fn number_after(
    alloc: Global,
    scopes: &Scopes<'_>,
    first: Option<Whole>,
    links: &[Link],
) -> Result<Option<Whole>, NoMemory>
    ensures { IfOk result (λ number. number ≡ lists.number_after scopes.now first links.now) }
{
    let mut left = first;
    for link in links {
        let right = number_in(alloc, scopes, &link.operand)?;
        left = combined(link.operator, left, right)?;
    }
    Ok(left)
}

#[tactic(auto, using(crate::proofs::NumberViews::parentheses_number, crate::proofs::NumberViews::concatenation_number, crate::proofs::NumberViews::replication_number), unfolding(typing_rules::specs::Constants::number_of_form))]
#[cycle(constant_numbers)]
fn number_of_form(
    alloc: Global,
    scopes: &Scopes<'_>,
    form: &PrimaryForm,
) -> Result<Option<Whole>, NoMemory>
    ensures { IfOk result (λ number. number ≡ spec.number_of_form scopes.now form.now) }
{
    match form {
        PrimaryForm::Number(literal) => decimal(alloc, literal),
        PrimaryForm::Name(name) => enum_value(alloc, scopes.meaning(name.as_slice())),
        PrimaryForm::Parentheses(inner) => number_in(alloc, scopes, inner.get()),
        PrimaryForm::Concatenation(_)
        | PrimaryForm::Replication(_, _)
        | PrimaryForm::Str(_)
        | PrimaryForm::Null
        | PrimaryForm::This
        | PrimaryForm::Super
        | PrimaryForm::New => Ok(None),
    }
}

/// The value of a constant, where a number is one.
pub fn in_range(number: &Option<Whole>) -> Option<u32>
    ensures { result ≡ spec.in_range number.now }
{
    match number {
        Some(number) => number.up_to(LARGEST),
        None => None,
    }
}
