//! Constants: their names, which are looked up first, wherever they stand in it, and their values.

ghost use Rattle.std.specs.Prelude.{◌≡◌};
ghost use Rattle.typing_rules.specs.Answers.{Answers};
ghost use Rattle.typing_rules.specs.Constants as spec;
ghost use Rattle.vera_names.specs.NameLists as lists;

use crate::codes::{UNKNOWN_NAME, WRONG_TYPE, refused};
use crate::constant_numbers::{in_range, number_in};
use crate::reserved::is_word;
use crate::scope::Scopes;
use std::alloc::Global;
use vera_ast::{Expr, FrontError, Link, PrimaryForm, Refusal, Suffix};

/// A name that stands for something, or the name of a built-in call or a mode word.
#[tactic(auto, unfolding(typing_rules::specs::Constants::name_known, typing_rules::specs::Checked::known, typing_rules::specs::Checked::refuse))]
fn name_known(scopes: &Scopes<'_>, line: u32, name: &[u8]) -> Result<(), Refusal>
    ensures { result ≡ spec.name_known scopes.now line name.now }
{
    if is_word(name) {
        return Ok(());
    }
    match scopes.meaning(name) {
        Some(_) => Ok(()),
        None => Err(Refusal {
            code: UNKNOWN_NAME,
            line,
        }),
    }
}

/// Whether each name in an expression is known, wherever it stands in it: the first one that isn't is refused.
#[tactic(auto, using(crate::proofs::NameViews::conditional_names, crate::proofs::NameViews::chain_names, crate::proofs::NameViews::unary_names, crate::proofs::NameViews::postfix_names))]
#[cycle(names)]
pub fn names_known(scopes: &Scopes<'_>, expr: &Expr) -> Result<(), Refusal>
    ensures { result ≡ spec.names_known scopes.now expr.now }
{
    match expr {
        Expr::Conditional(conditional) => {
            names_known(scopes, conditional.condition.get())?;
            names_known(scopes, conditional.when_true.get())?;
            names_known(scopes, conditional.when_false.get())
        }
        Expr::Chain { first, links, .. } => {
            names_known(scopes, first.get())?;
            links_known(scopes, links.as_slice())
        }
        Expr::Unary(unary) => names_known(scopes, unary.operand.get()),
        Expr::Postfix(postfix) => {
            form_names_known(scopes, postfix.primary.line, &postfix.primary.form)?;
            suffixes_known(scopes, postfix.suffixes.as_slice())
        }
    }
}

#[cycle(names)]
fn exprs_known(scopes: &Scopes<'_>, exprs: &[Expr]) -> Result<(), Refusal>
    ensures { result ≡ lists.exprs_known scopes.now exprs.now }
{
    for expr in exprs {
        names_known(scopes, expr)?;
    }
    Ok(())
}

#[cycle(names)]
fn links_known(scopes: &Scopes<'_>, links: &[Link]) -> Result<(), Refusal>
    ensures { result ≡ lists.links_known scopes.now links.now }
{
    for link in links {
        names_known(scopes, &link.operand)?;
    }
    Ok(())
}

#[cycle(names)]
fn suffixes_known(scopes: &Scopes<'_>, suffixes: &[Suffix]) -> Result<(), Refusal>
    ensures { result ≡ lists.suffixes_known scopes.now suffixes.now }
{
    for suffix in suffixes {
        suffix_known(scopes, suffix)?;
    }
    Ok(())
}

#[tactic(auto, using(crate::proofs::NameViews::index_names, crate::proofs::NameViews::bits_names, crate::proofs::NameViews::call_names), unfolding(typing_rules::specs::Constants::one_suffix_known))]
#[cycle(names)]
fn suffix_known(scopes: &Scopes<'_>, suffix: &Suffix) -> Result<(), Refusal>
    ensures { result ≡ spec.one_suffix_known scopes.now suffix.now }
{
    match suffix {
        Suffix::Member(_) | Suffix::New => Ok(()),
        Suffix::Index(index) => names_known(scopes, index.get()),
        Suffix::Bits(high, low) => {
            names_known(scopes, high.get())?;
            names_known(scopes, low.get())
        }
        Suffix::Call(arguments) => exprs_known(scopes, arguments.as_slice()),
    }
}

#[tactic(auto, using(crate::proofs::NameViews::parentheses_names, crate::proofs::NameViews::concatenation_names, crate::proofs::NameViews::replication_names), unfolding(typing_rules::specs::Constants::form_names_known))]
#[cycle(names)]
fn form_names_known(scopes: &Scopes<'_>, line: u32, form: &PrimaryForm) -> Result<(), Refusal>
    ensures { result ≡ spec.form_names_known scopes.now line form.now }
{
    match form {
        PrimaryForm::Name(name) => name_known(scopes, line, name.as_slice()),
        PrimaryForm::Parentheses(inner) => names_known(scopes, inner.get()),
        PrimaryForm::Concatenation(parts) => exprs_known(scopes, parts.as_slice()),
        PrimaryForm::Replication(count, parts) => {
            names_known(scopes, count.get())?;
            exprs_known(scopes, parts.as_slice())
        }
        PrimaryForm::Number(_)
        | PrimaryForm::Str(_)
        | PrimaryForm::Null
        | PrimaryForm::This
        | PrimaryForm::Super
        | PrimaryForm::New => Ok(()),
    }
}

/// The value of a constant, 0 to 2,147,483,647.
pub fn constant(alloc: Global, scopes: &Scopes<'_>, expr: &Expr) -> Result<u32, FrontError>
    ensures { Answers (spec.constant scopes.now expr.now) result }
{
    if let Err(refusal) = names_known(scopes, expr) {
        return Err(FrontError::Refused(refusal));
    }
    let number = number_in(alloc, scopes, expr)?;
    match in_range(&number) {
        Some(value) => Ok(value),
        None => Err(refused(WRONG_TYPE, expr.line())),
    }
}
