//! Operators by their signs, and a level of operators between operands.

ghost use Rattle.std.specs.Prelude.{◌≡◌, ℕ, IfOk, Result};
ghost use Rattle.vera_ast.specs.declared.token.Token.{Token};
ghost use Rattle.vera_ast.specs.declared.tree.expressions.Expr.{Expr};
ghost use Rattle.grammar_laws.specs.Readers.{Reads, Parser};
ghost use Rattle.parse_cursor.specs.TokenReading.{many, codes_of};
ghost use Rattle.parse_cursor.specs.Nesting.{Follows};
ghost use Rattle.parse_exprs.specs.Operators as spec;
ghost use Rattle.parse_exprs.specs.ExpressionReading as reading;

use grammar_laws::Fault;
use parse_cursor::cursor::Cursor;
use sqlite_items::{Boxed, Items};
use std::alloc::{AllocError, Global};
use vera_ast::codes::{
    AND, AND_AND, CASE_EQUAL, CASE_NOT_EQUAL, EQUAL, GREATER, GREATER_EQUAL, LESS, LESS_EQUAL,
    MINUS, NAND, NOR, NOT, NOT_EQUAL, OR, OR_OR, PERCENT, PLUS, SHIFT_LEFT, SHIFT_RIGHT, SLASH,
    STAR, TILDE, WILD_EQUAL, WILD_NOT_EQUAL, XNOR, XOR,
};
use vera_ast::{ChainOperator, Expr, Link, UnaryOperator, with};

/// The operators that stand before their operand.
pub const UNARY: [(u8, UnaryOperator); 10] = [
    (NOT, UnaryOperator::LogicalNot),
    (TILDE, UnaryOperator::Not),
    (MINUS, UnaryOperator::Minus),
    (PLUS, UnaryOperator::Plus),
    (AND, UnaryOperator::And),
    (OR, UnaryOperator::Or),
    (XOR, UnaryOperator::Xor),
    (NAND, UnaryOperator::Nand),
    (NOR, UnaryOperator::Nor),
    (XNOR, UnaryOperator::Xnor),
];

pub const LOGICAL_OR: [(u8, ChainOperator); 1] = [(OR_OR, ChainOperator::LogicalOr)];

pub const LOGICAL_AND: [(u8, ChainOperator); 1] = [(AND_AND, ChainOperator::LogicalAnd)];

pub const BIT_OR: [(u8, ChainOperator); 1] = [(OR, ChainOperator::Or)];

pub const BIT_XOR: [(u8, ChainOperator); 2] = [
    (XOR, ChainOperator::Xor),
    (XNOR, ChainOperator::Xnor),
];

pub const BIT_AND: [(u8, ChainOperator); 1] = [(AND, ChainOperator::And)];

pub const EQUALITY: [(u8, ChainOperator); 6] = [
    (EQUAL, ChainOperator::Equal),
    (NOT_EQUAL, ChainOperator::NotEqual),
    (CASE_EQUAL, ChainOperator::CaseEqual),
    (CASE_NOT_EQUAL, ChainOperator::CaseNotEqual),
    (WILD_EQUAL, ChainOperator::WildEqual),
    (WILD_NOT_EQUAL, ChainOperator::WildNotEqual),
];

pub const ORDER: [(u8, ChainOperator); 4] = [
    (LESS, ChainOperator::Less),
    (LESS_EQUAL, ChainOperator::LessEqual),
    (GREATER, ChainOperator::Greater),
    (GREATER_EQUAL, ChainOperator::GreaterEqual),
];

pub const SHIFT: [(u8, ChainOperator); 2] = [
    (SHIFT_LEFT, ChainOperator::ShiftLeft),
    (SHIFT_RIGHT, ChainOperator::ShiftRight),
];

pub const SUM: [(u8, ChainOperator); 2] = [
    (PLUS, ChainOperator::Add),
    (MINUS, ChainOperator::Subtract),
];

pub const PRODUCT: [(u8, ChainOperator); 3] = [
    (STAR, ChainOperator::Multiply),
    (SLASH, ChainOperator::Divide),
    (PERCENT, ChainOperator::Remainder),
];

/// Operands of one level; one alone is no chain.
fn chained(alloc: Global, first: Expr, links: Items<Link>) -> Result<Expr, AllocError>
    ensures { IfOk result (λ x. x ≡ spec.chained first links) }
{
    if links.is_empty() {
        return Ok(first);
    }
    let line = first.line();
    Ok(Expr::Chain {
        line,
        first: Boxed::new(alloc, first)?,
        links,
    })
}

/// An operator and its right operand.
#[tactic(auto, unfolding(crate::specs::ExpressionReading::link, grammar_laws::specs::Readers::and_then))]
fn link<F: Fn(&mut Cursor<'_>) -> Result<Expr, Fault>>(
    tokens: &mut Cursor<'_>,
    operators: &[(u8, ChainOperator)],
    operand: &F,
) -> Result<Link, Fault>
    requires { F.IsAlwaysCallable operand.now }
    ensures { (p : Parser Token Expr) → Follows p (F.pre operand.now) (F.post operand.now) → Reads (reading.link operators.now p tokens.old.rest.now) result tokens.new.rest.now }
{
    let (_, operator) = tokens.sign(operators)?;
    let operand = operand(tokens)?;
    Ok(Link { operator, operand })
}

/// Operators with their right operands, for as long as one of this level comes.
fn links<F: Fn(&mut Cursor<'_>) -> Result<Expr, Fault>>(
    alloc: Global,
    tokens: &mut Cursor<'_>,
    operators: &[(u8, ChainOperator)],
    operand: &F,
) -> Result<Items<Link>, Fault>
    requires { F.IsAlwaysCallable operand.now }
    ensures { (p : Parser Token Expr) → Follows p (F.pre operand.now) (F.post operand.now) → Reads (many (codes_of operators.now) (reading.link operators.now p) tokens.old.rest.now) result tokens.new.rest.now }
{
    let mut found = Items::new(alloc);
    for _turn in 0..tokens.rest.len() {
        if !tokens.begins_sign(operators) {
            return Ok(found);
        }
        found.push(link(tokens, operators, operand)?)?;
    }
    Ok(found)
}

/// A level of operators between operands.
#[tactic(auto, unfolding(crate::specs::ExpressionReading::level, grammar_laws::specs::Readers::and_then))]
pub fn level<F: Fn(&mut Cursor<'_>) -> Result<Expr, Fault>>(
    alloc: Global,
    tokens: &mut Cursor<'_>,
    operators: &[(u8, ChainOperator)],
    operand: F,
) -> Result<Expr, Fault>
    requires { F.IsAlwaysCallable operand }
    ensures { (p : Parser Token Expr) → Follows p (F.pre operand) (F.post operand) → Reads (reading.level operators.now p tokens.old.rest.now) result tokens.new.rest.now }
{
    let first = operand(tokens)?;
    let (first, links) = with(first, links(alloc, tokens, operators, &operand))?;
    Ok(chained(alloc, first, links)?)
}
