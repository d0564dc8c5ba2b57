//! Labels of arms: values that have to be vectors.

ghost use Rattle.std.specs.Prelude.{◌≡◌};
ghost use Rattle.typing_rules.specs.Answers.{Answers};
ghost use Rattle.typing_rules.specs.Checked as checked;
ghost use Rattle.typing_rules.specs.Expressions as expressions;
ghost use Rattle.typing_rules.specs.Statements as spec;
ghost use Rattle.vera_steps.specs.SimpleForms as lists;

use four_state::List;
use std::alloc::Global;
use typing_rules::head::Typed;
use vera_ast::{ArmLabel, Expr, FrontError, TypedArmLabel, TypedExpr, with};
use vera_exprs::expressions::expr;
use vera_names::codes::WRONG_TYPE;
use vera_names::fitting::is_vector;
use vera_names::rules::{answered, keeps};
use vera_values::lists::list_with;
use vera_values::sight::Sight;

/// Values, one after the other.
fn exprs(alloc: Global, sight: &Sight<'_>, values: &[Expr]) -> Result<List<Typed>, FrontError>
    ensures { Answers (checked.each (expressions.expr sight.now) values.now) result }
{
    let mut typed = List::empty(alloc);
    for value in values {
        let (before, next) = with(typed, expr(alloc, sight, value))?;
        typed = list_with(before, next)?;
    }
    Ok(typed)
}

/// A value that has to be a vector.
#[tactic(auto, unfolding(vera_names::proofs::StepsOpened::rules))]
fn label(line: u32, value: Typed) -> Result<TypedExpr, FrontError>
    ensures { Answers (lists.label line value) result }
{
    let Typed { expr: value, of } = value;
    let kept = answered(keeps(line, &[(WRONG_TYPE, !is_vector(of))]));
    let (value, ()) = with(value, kept)?;
    Ok(value)
}

/// Values that have to be vectors.
fn labels(alloc: Global, line: u32, values: List<Typed>) -> Result<List<TypedExpr>, FrontError>
    ensures { Answers (checked.each (lists.label line) values) result }
{
    let mut typed = List::empty(alloc);
    for value in values.into_vec() {
        let (before, next) = with(typed, label(line, value))?;
        typed = list_with(before, next)?;
    }
    Ok(typed)
}

/// `expr { "," expr } | "default"`.
#[tactic(auto, unfolding(vera_names::proofs::StepsOpened::rules))]
pub fn arm_label(
    alloc: Global,
    sight: &Sight<'_>,
    line: u32,
    found: &ArmLabel,
) -> Result<TypedArmLabel, FrontError>
    ensures { Answers (spec.arm_label sight.now line found.now) result }
{
    match found {
        ArmLabel::Values(values) => {
            let all = exprs(alloc, sight, values.as_slice())?;
            Ok(TypedArmLabel::Values(labels(alloc, line, all)?))
        }
        ArmLabel::Default => Ok(TypedArmLabel::Default),
    }
}
