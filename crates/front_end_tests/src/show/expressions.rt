//! Expressions.

use super::Out;
use four_state::NoMemory;
use vera_ast::{
    ChainOperator, Conditional, Expr, Link, Number, Postfix, Primary, PrimaryForm, Suffix, Unary,
    UnaryOperator,
};

/// `3:(3:a + 5:b)` is a chain, `3:(-4:a)` a unary operator, `3:(3:a ? 5:b : 7:c)` a condition.
#[cycle(show_expr)]
pub fn expr(out: &mut Out, node: &Expr) -> Result<(), NoMemory> {
    match node {
        Expr::Conditional(node) => conditional(out, node),
        Expr::Chain { line, first, links } => {
            out.line(*line)?;
            out.put(b"(")?;
            expr(out, first.get())?;
            for item in links.as_slice() {
                link(out, item)?;
            }
            out.put(b")")
        }
        Expr::Unary(node) => unary(out, node),
        Expr::Postfix(node) => postfix(out, node),
    }
}

#[cycle(show_expr)]
fn conditional(out: &mut Out, node: &Conditional) -> Result<(), NoMemory> {
    out.line(node.line)?;
    out.put(b"(")?;
    expr(out, node.condition.get())?;
    out.put(b" ? ")?;
    expr(out, node.when_true.get())?;
    out.put(b" : ")?;
    expr(out, node.when_false.get())?;
    out.put(b")")
}

#[cycle(show_expr)]
fn link(out: &mut Out, node: &Link) -> Result<(), NoMemory> {
    out.put(b" ")?;
    out.put(match node.operator {
        ChainOperator::LogicalOr => b"||",
        ChainOperator::LogicalAnd => b"&&",
        ChainOperator::Or => b"|",
        ChainOperator::Xor => b"^",
        ChainOperator::Xnor => b"~^",
        ChainOperator::And => b"&",
        ChainOperator::Equal => b"==",
        ChainOperator::NotEqual => b"!=",
        ChainOperator::CaseEqual => b"===",
        ChainOperator::CaseNotEqual => b"!==",
        ChainOperator::WildEqual => b"=?=",
        ChainOperator::WildNotEqual => b"!?=",
        ChainOperator::Less => b"<",
        ChainOperator::LessEqual => b"<=",
        ChainOperator::Greater => b">",
        ChainOperator::GreaterEqual => b">=",
        ChainOperator::ShiftLeft => b"<<",
        ChainOperator::ShiftRight => b">>",
        ChainOperator::Add => b"+",
        ChainOperator::Subtract => b"-",
        ChainOperator::Multiply => b"*",
        ChainOperator::Divide => b"/",
        ChainOperator::Remainder => b"%",
    })?;
    out.put(b" ")?;
    expr(out, &node.operand)
}

#[cycle(show_expr)]
fn unary(out: &mut Out, node: &Unary) -> Result<(), NoMemory> {
    out.line(node.line)?;
    out.put(match node.operator {
        UnaryOperator::LogicalNot => b"(!",
        UnaryOperator::Not => b"(~",
        UnaryOperator::Minus => b"(-",
        UnaryOperator::Plus => b"(+",
        UnaryOperator::And => b"(&",
        UnaryOperator::Or => b"(|",
        UnaryOperator::Xor => b"(^",
        UnaryOperator::Nand => b"(~&",
        UnaryOperator::Nor => b"(~|",
        UnaryOperator::Xnor => b"(~^",
    })?;
    out.put(b" ")?;
    expr(out, node.operand.get())?;
    out.put(b")")
}

/// `3:a.b[5:i](7:x, 9:y)`. A postfix expression on another line than its first part has a `!` before it.
#[cycle(show_expr)]
pub fn postfix(out: &mut Out, node: &Postfix) -> Result<(), NoMemory> {
    if node.line != node.primary.line {
        out.put(b"!")?;
    }
    primary(out, &node.primary)?;
    for item in node.suffixes.as_slice() {
        suffix(out, item)?;
    }
    Ok(())
}

#[cycle(show_expr)]
fn suffix(out: &mut Out, node: &Suffix) -> Result<(), NoMemory> {
    match node {
        Suffix::Member(name) => {
            out.put(b".")?;
            out.name(name)
        }
        Suffix::New => out.put(b".new"),
        Suffix::Index(index) => {
            out.put(b"[")?;
            expr(out, index.get())?;
            out.put(b"]")
        }
        Suffix::Bits(high, low) => {
            out.put(b"[")?;
            expr(out, high.get())?;
            out.put(b" : ")?;
            expr(out, low.get())?;
            out.put(b"]")
        }
        Suffix::Call(arguments) => {
            out.put(b"(")?;
            exprs(out, arguments.as_slice())?;
            out.put(b")")
        }
    }
}

/// `3:par(4:a)` is an expression in parentheses, `3:{4:a, 6:b}` and `3:{4:2{6:a}}` are joined parts.
#[cycle(show_expr)]
fn primary(out: &mut Out, node: &Primary) -> Result<(), NoMemory> {
    out.line(node.line)?;
    match &node.form {
        PrimaryForm::Number(value) => number(out, value),
        PrimaryForm::Str(text) => out.string(text),
        PrimaryForm::Name(text) => out.name(text),
        PrimaryForm::Null => out.put(b"null"),
        PrimaryForm::This => out.put(b"this"),
        PrimaryForm::Super => out.put(b"super"),
        PrimaryForm::New => out.put(b"new"),
        PrimaryForm::Parentheses(inner) => {
            out.put(b"par(")?;
            expr(out, inner.get())?;
            out.put(b")")
        }
        PrimaryForm::Concatenation(parts) => {
            out.put(b"{")?;
            exprs(out, parts.as_slice())?;
            out.put(b"}")
        }
        PrimaryForm::Replication(count, parts) => {
            out.put(b"{")?;
            expr(out, count.get())?;
            out.put(b"{")?;
            exprs(out, parts.as_slice())?;
            out.put(b"}}")
        }
    }
}

/// Expressions with commas between them.
#[cycle(show_expr)]
pub fn exprs(out: &mut Out, nodes: &[Expr]) -> Result<(), NoMemory> {
    for (at, node) in nodes.iter().enumerate() {
        if at > 0 {
            out.put(b", ")?;
        }
        expr(out, node)?;
    }
    Ok(())
}

/// An `integer` in decimal, and any other literal as `'` and its bits, the highest first.
pub fn number(out: &mut Out, value: &Number) -> Result<(), NoMemory> {
    if value.is_decimal {
        return out.name(&value.value.to_decimal_text(out.alloc, false)?);
    }
    out.put(b"'")?;
    out.name(&value.value.to_binary_text(out.alloc)?)
}
