//! Expressions: sums and comparisons of names, signals and decimal numbers are built.

ghost use Rattle.std.specs.Prelude.{◌≡◌};
ghost use Rattle.vera_ast.specs.declared.tree.expressions.Expr.TheVariants as view;
ghost use Rattle.not_built.specs.Expressions as spec;
ghost use Rattle.not_built.specs.Lines.{first};
ghost use Rattle.not_built.specs.Passing as passing;

use vera_ast::{ChainOperator, Expr, Link, Number, Postfix, PrimaryForm, Suffix};

fn is_built(operator: ChainOperator) -> bool
    ensures { result ≡ spec.is_built operator }
{
    match operator {
        ChainOperator::Add
        | ChainOperator::Subtract
        | ChainOperator::Less
        | ChainOperator::LessEqual
        | ChainOperator::Greater
        | ChainOperator::GreaterEqual
        | ChainOperator::Equal
        | ChainOperator::NotEqual => true,
        _ => false,
    }
}

/// Whether all operators of a chain are built.
fn all_built(links: &[Link]) -> bool
    ensures { result ≡ passing.all_built links.now }
{
    for link in links {
        if !is_built(link.operator) {
            return false;
        }
    }
    true
}

fn is_name(form: &PrimaryForm) -> bool
    ensures { result ≡ spec.is_name form.now }
{
    matches!(form, PrimaryForm::Name(_))
}

fn is_member(suffix: &Suffix) -> bool
    ensures { result ≡ spec.is_member suffix.now }
{
    matches!(suffix, Suffix::Member(_))
}

/// Whether nothing follows a name, or one `.` and a name.
fn is_plain(suffixes: &[Suffix]) -> bool
    ensures { result ≡ passing.is_plain suffixes.now }
{
    match suffixes {
        [] => true,
        [suffix] => is_member(suffix),
        _ => false,
    }
}

/// Whether it is `name` or `name . name`.
pub fn is_variable(post: &Postfix) -> bool
    ensures { result ≡ passing.names_variable post.now }
{
    is_name(&post.primary.form) && is_plain(post.suffixes.as_slice())
}

/// A number literal in a part that begins on a line: a based one isn't built.
pub fn in_number(line: u32, number: &Number) -> Option<u32>
    ensures { result ≡ first (spec.number_lines line number.now) }
{
    if number.is_decimal { None } else { Some(line) }
}

/// The line of the first construct in an expression that isn't built.
#[tactic(auto, using(crate::proofs::ExprFirsts::conditional_first, crate::proofs::ExprFirsts::chain_first, crate::proofs::ExprFirsts::unary_first))]
#[cycle(expressions)]
pub fn in_expr(expr: &Expr) -> Option<u32>
    ensures { result ≡ first (spec.expr_lines expr.now) }
{
    match expr {
        Expr::Conditional(conditional) => Some(conditional.line),
        Expr::Chain { line, first, links } => {
            if !all_built(links.as_slice()) {
                return Some(*line);
            }
            match in_expr(first.get()) {
                Some(line) => Some(line),
                None => in_operands(links.as_slice()),
            }
        }
        Expr::Unary(unary) => Some(unary.line),
        Expr::Postfix(post) => in_postfix(post),
    }
}

#[cycle(expressions)]
fn in_operands(links: &[Link]) -> Option<u32>
    ensures { result ≡ passing.first_in passing.link_lines links.now }
{
    for link in links {
        if let Some(line) = in_expr(&link.operand) {
            return Some(line);
        }
    }
    None
}

#[tactic(auto, using(crate::proofs::ExprFirsts::postfix_first))]
#[cycle(expressions)]
fn in_postfix(post: &Postfix) -> Option<u32>
    ensures { result ≡ first (spec.expr_lines (view.Postfix post.now)) }
{
    if is_variable(post) {
        return None;
    }
    if post.suffixes.is_empty() {
        return in_form(post.primary.line, &post.primary.form);
    }
    Some(post.line)
}

#[tactic(auto, using(crate::proofs::ExprFirsts::parentheses_first, crate::proofs::ExprFirsts::concatenation_first, crate::proofs::ExprFirsts::replication_first), unfolding(crate::specs::Expressions::form_lines))]
#[cycle(expressions)]
fn in_form(line: u32, form: &PrimaryForm) -> Option<u32>
    ensures { result ≡ first (spec.form_lines line form.now) }
{
    match form {
        PrimaryForm::Number(number) => in_number(line, number),
        PrimaryForm::Name(_) => None,
        PrimaryForm::Parentheses(inner) => in_expr(inner.get()),
        PrimaryForm::Str(_)
        | PrimaryForm::Null
        | PrimaryForm::This
        | PrimaryForm::Super
        | PrimaryForm::New
        | PrimaryForm::Concatenation(_)
        | PrimaryForm::Replication(_, _) => Some(line),
    }
}
