//! The types that declarations name.

ghost use Rattle.std.specs.Prelude.{◌≡◌, suc, Some as SomeOf};
ghost use Rattle.typing_rules.specs.Answers.{Answers};
ghost use Rattle.typing_rules.specs.DataTypes as spec;
ghost use Rattle.typing_rules.specs.Types as types;

use crate::codes::{PAST_LIMIT, UNKNOWN_NAME, WRONG_TYPE, refused};
use crate::constants::constant;
use crate::fitting::width_from;
use crate::rules::answered;
use crate::scope::Scopes;
use std::alloc::Global;
use typing_rules::names::Meaning;
use vera_ast::{DataType, FrontError, Range, Refusal, TypeForm, ValueType, VectorType, Width};

/// The width of the bits from a number down to 0, where there are no more than 128.
fn width_down_from(high: u32) -> Option<Width>
    ensures { result ≡ types.width_from (suc high) }
{
    if high > 127 {
        return None;
    }
    width_from(high + 1)
}

/// `range`: its second number is 0, and the first one at most 127.
pub fn range(alloc: Global, scopes: &Scopes<'_>, range: &Range) -> Result<Width, FrontError>
    ensures { Answers (spec.range scopes.now range.now) result }
{
    let high = constant(alloc, scopes, &range.high)?;
    let low = constant(alloc, scopes, &range.low)?;
    if low != 0 {
        return Err(refused(WRONG_TYPE, range.line));
    }
    match width_down_from(high) {
        Some(width) => Ok(width),
        None => Err(refused(PAST_LIMIT, range.line)),
    }
}

/// `bit` and `reg` with a range: a vector of so many bits.
fn ranged(alloc: Global, scopes: &Scopes<'_>, bits: &Range) -> Result<ValueType, FrontError>
    ensures { Answers (spec.bits scopes.now (SomeOf bits.now)) result }
{
    let width = range(alloc, scopes, bits)?;
    Ok(ValueType::Vector(VectorType::Bits(width)))
}

/// `bit` and `reg`: a vector, of one bit where no range stands.
#[tactic(auto, using(crate::proofs::DataTypeSteps::bits_one))]
fn bits(alloc: Global, scopes: &Scopes<'_>, bits: &Option<Range>) -> Result<ValueType, FrontError>
    ensures { Answers (spec.bits scopes.now bits.now) result }
{
    match bits {
        None => Ok(ValueType::Vector(VectorType::Bits(Width::one()))),
        Some(bits) => ranged(alloc, scopes, bits),
    }
}

/// The type that a name stands for.
#[tactic(auto, unfolding(typing_rules::specs::Checked::refuse))]
fn type_named(line: u32, means: Meaning) -> Result<ValueType, Refusal>
    ensures { result ≡ spec.type_named line means }
{
    match means {
        Meaning::Enumeration(number) => Ok(ValueType::Enumeration(number)),
        Meaning::Class(number) => Ok(ValueType::Class(number)),
        Meaning::Group(number) => Ok(ValueType::Group(number)),
        Meaning::Later
        | Meaning::Variable(_, _)
        | Meaning::Result(_)
        | Meaning::EnumName(_)
        | Meaning::Interface(_)
        | Meaning::Task(_)
        | Meaning::Function(_)
        | Meaning::Program => Err(Refusal {
            code: WRONG_TYPE,
            line,
        }),
    }
}

/// The type of a name in sight.
fn named_type(scopes: &Scopes<'_>, line: u32, name: &[u8]) -> Result<ValueType, FrontError>
    ensures { Answers (spec.named_type scopes.now line name.now) result }
{
    match scopes.meaning(name) {
        Some(means) => answered(type_named(line, means)),
        None => Err(refused(UNKNOWN_NAME, line)),
    }
}

/// The type of one of the forms.
fn type_of_form(
    alloc: Global,
    scopes: &Scopes<'_>,
    line: u32,
    form: &TypeForm,
) -> Result<ValueType, FrontError>
    ensures { Answers (spec.type_of_form scopes.now line form.now) result }
{
    match form {
        TypeForm::Integer => Ok(ValueType::Vector(VectorType::Integer)),
        TypeForm::Bit(range) => bits(alloc, scopes, range),
        TypeForm::Reg(range) => bits(alloc, scopes, range),
        TypeForm::Str => Ok(ValueType::Str),
        TypeForm::Event => Ok(ValueType::Event),
        TypeForm::Named(name) => named_type(scopes, line, name.as_slice()),
    }
}

/// `type`: the type that it names.
#[tactic(auto, unfolding(typing_rules::specs::DataTypes::data_type))]
pub fn data_type(alloc: Global, scopes: &Scopes<'_>, of: &DataType) -> Result<ValueType, FrontError>
    ensures { Answers (spec.data_type scopes.now of.now) result }
{
    type_of_form(alloc, scopes, of.line, &of.form)
}
