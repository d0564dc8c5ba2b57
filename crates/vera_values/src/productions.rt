//! What the walk makes of an expression once its parts were walked.

ghost use Rattle.std.specs.Prelude.{◌≡◌, ◌≤◌, ◌*◌, IfOk, Ok as Given};
ghost use Rattle.std.specs.List.{list_all};
ghost use Rattle.vera_ast.specs.declared.typed.expr.TypedExpr.TheVariants as expr;
ghost use Rattle.typing_rules.specs.Answers.{Answers};
ghost use Rattle.typing_rules.specs.Arguments as arguments;
ghost use Rattle.typing_rules.specs.Productions as spec;
ghost use Rattle.vera_values.specs.Steps.{bits_in, choice_head, choice_type, joined, part_bits};
ghost use Rattle.typing_rules.specs.Types as types;

use crate::arguments::is_str;
use crate::lists::items_with;
use four_state::NoMemory;
use sqlite_items::{Boxed, Items};
use std::alloc::Global;
use typing_rules::head::{Head, Typed};
use vera_ast::{
    ChainOperator, FrontError, TypedConditional, TypedExpr, TypedLink, UnaryOperator, ValueType,
    VectorType, Width, with,
};
use vera_names::codes::{WRONG_TYPE, refuse};
use vera_names::fitting::{is_vector, width_from, works_in};

/// A condition with its two sides.
fn choice(
    alloc: Global,
    condition: TypedExpr,
    when_true: TypedExpr,
    when_false: TypedExpr,
    of: VectorType,
) -> Result<TypedExpr, NoMemory>
    ensures { IfOk result (λ x. x ≡ expr.Conditional (record { condition = condition; when_true = when_true; when_false = when_false; of = of })) }
{
    let (sides, condition) = with((when_true, when_false), Boxed::new(alloc, condition))?;
    let (when_true, when_false) = sides;
    let (rest, when_true) = with((condition, when_false), Boxed::new(alloc, when_true))?;
    let (condition, when_false) = rest;
    let (rest, when_false) = with((condition, when_true), Boxed::new(alloc, when_false))?;
    let (condition, when_true) = rest;
    Ok(TypedExpr::Conditional(TypedConditional {
        condition,
        when_true,
        when_false,
        of,
    }))
}

/// A condition with its two sides, which have a common type.
fn chosen(
    alloc: Global,
    condition: Typed,
    when_true: Typed,
    when_false: Typed,
    of: VectorType,
) -> Result<Head, FrontError>
    ensures { Answers (Given (choice_head condition when_true when_false of)) result }
{
    let Typed { expr: test, .. } = condition;
    let Typed { expr: first, .. } = when_true;
    let Typed { expr: second, .. } = when_false;
    let expr = choice(alloc, test, first, second, of)?;
    Ok(Head::Value(Typed {
        expr,
        of: ValueType::Vector(of),
    }))
}

/// The type of a choice by a condition between two sides: vectors alone.
fn choice_type(
    condition: ValueType,
    when_true: ValueType,
    when_false: ValueType,
) -> Option<VectorType>
    ensures { result ≡ choice_type condition when_true when_false }
{
    if !is_vector(condition) {
        return None;
    }
    match (when_true.vector(), when_false.vector()) {
        (Some(left), Some(right)) => Some(left.common(right)),
        _ => None,
    }
}

/// `condition ? when_true : when_false`: vectors alone.
#[tactic(auto, using(crate::proofs::ProductionSteps::choice_right, crate::proofs::ProductionSteps::choice_wrong))]
pub fn conditional(
    alloc: Global,
    line: u32,
    condition: Typed,
    when_true: Typed,
    when_false: Typed,
) -> Result<Head, FrontError>
    ensures { Answers (spec.conditional line condition when_true when_false) result }
{
    match choice_type(condition.of, when_true.of, when_false.of) {
        Some(of) => chosen(alloc, condition, when_true, when_false, of),
        None => refuse((condition, when_true, when_false), WRONG_TYPE, line),
    }
}

/// The links of a chain behind a first operand of a type, and the type of the whole.
#[tactic(auto, using(crate::proofs::ProductionSteps::link_wrong, crate::proofs::ProductionSteps::link_right, crate::proofs::ProductionSteps::links_ended, crate::proofs::ProductionSteps::none_before))]
fn chained(
    alloc: Global,
    parents: &[Option<u32>],
    line: u32,
    first: ValueType,
    links: Vec<(ChainOperator, Typed)>,
) -> Result<(Items<TypedLink>, ValueType), FrontError>
    ensures { Answers (spec.chained parents.now line first links.items) result }
{
    let mut done = Items::new(alloc);
    let mut left = first;
    for link in links {
        let (operator, operand) = link;
        match works_in(parents, left, operator, operand.of) {
            Some(works) => {
                let link = TypedLink {
                    operator,
                    works_in: works,
                    operand: operand.expr,
                };
                done = items_with(done, link)?;
                left = operator.gives(works);
            }
            None => return refuse(operand, WRONG_TYPE, line),
        }
    }
    Ok((done, left))
}

/// A level of the chain of operators, grouped from the left: its first operand, and each operator with the operand on
/// its right. `parents` has the parent of each class.
#[tactic(auto, using(crate::proofs::ProductionSteps::chain_right, crate::proofs::ProductionSteps::chain_wrong))]
pub fn chain(
    alloc: Global,
    parents: &[Option<u32>],
    line: u32,
    first: Typed,
    links: Vec<(ChainOperator, Typed)>,
) -> Result<Head, FrontError>
    ensures { Answers (spec.chain parents.now line first links.items) result }
{
    let Typed { expr, of } = first;
    let (expr, chained) = with(expr, chained(alloc, parents, line, of, links))?;
    let (links, of) = chained;
    let (links, first) = with(links, Boxed::new(alloc, expr))?;
    Ok(Head::Value(Typed {
        expr: TypedExpr::Chain(first, links),
        of,
    }))
}

/// An operator before its operand: a vector.
#[tactic(auto, using(crate::proofs::ProductionSteps::unary_wrong, crate::proofs::ProductionSteps::unary_right))]
pub fn unary(
    alloc: Global,
    line: u32,
    operator: UnaryOperator,
    operand: Typed,
) -> Result<Head, FrontError>
    ensures { Answers (spec.unary line operator operand) result }
{
    let Typed { expr, of } = operand;
    if !is_vector(of) {
        return refuse(expr, WRONG_TYPE, line);
    }
    Ok(Head::Value(Typed {
        expr: TypedExpr::Unary(operator, Boxed::new(alloc, expr)?),
        of: operator.gives(of),
    }))
}

/// The number of bits of a vector, and 0 where there is none.
fn bits_of(of: Option<VectorType>) -> u8
    ensures value { result ≡ spec.bits_of of }
    ensures within { result ≤ 128 }
{
    match of {
        Some(of) => of.width(),
        None => 0,
    }
}

/// The number of bits of a part.
#[tactic(auto, unfolding(crate::specs::Steps::part_bits))]
fn part_bits(part: &Typed) -> u8
    ensures value { result ≡ part_bits part.now }
    ensures within { result ≤ 128 }
{
    bits_of(part.of.vector())
}

fn are_strs(parts: &[Typed]) -> bool
    ensures { result ≡ list_all (λ x. arguments.is_str x.of) parts.now }
{
    for part in parts {
        if !is_str(part.of) {
            return false;
        }
    }
    true
}

fn are_vectors(parts: &[Typed]) -> bool
    ensures { result ≡ list_all (λ x. types.is_vector x.of) parts.now }
{
    for part in parts {
        if !is_vector(part.of) {
            return false;
        }
    }
    true
}

/// The width of so many copies of so many bits.
#[tactic(auto, using(crate::proofs::ProductionSteps::too_wide))]
fn times(count: u32, bits: u32) -> Option<Width>
    requires { bits ≤ 128 }
    ensures { result ≡ types.width_from (count * bits) }
{
    let bits = u64::from(count) * u64::from(bits);
    if bits > 128 {
        return None;
    }
    width_from(bits as u32)
}

/// The width of vectors that are joined, so many times; None where it isn't 1 to 128.
fn joined_width(count: u32, parts: &[Typed]) -> Option<Width>
    ensures { result ≡ types.width_from (count * bits_in parts.now) }
{
    let mut bits = 0;
    for part in parts {
        bits += u32::from(part_bits(part));
        if bits > 128 {
            return None;
        }
    }
    times(count, bits)
}

/// The type of parts that are joined, so many times: vectors to at most 128 bits, and strings where all are strings.
fn joined_type(count: u32, parts: &[Typed]) -> Option<ValueType>
    ensures { result ≡ joined count parts.now }
{
    if are_strs(parts) {
        return Some(ValueType::Str);
    }
    if !are_vectors(parts) {
        return None;
    }
    match joined_width(count, parts) {
        Some(width) => Some(ValueType::Vector(VectorType::Bits(width))),
        None => None,
    }
}

fn exprs_of(alloc: Global, parts: Vec<Typed>) -> Result<Items<TypedExpr>, NoMemory>
    ensures { IfOk result (λ exprs. exprs ≡ spec.exprs_of parts.items) }
{
    let mut exprs = Items::new(alloc);
    for part in parts {
        exprs = items_with(exprs, part.expr)?;
    }
    Ok(exprs)
}

/// `{ a, b }`.
#[tactic(auto, using(crate::proofs::ProductionSteps::concatenation_right, crate::proofs::ProductionSteps::concatenation_wrong))]
pub fn concatenation(alloc: Global, line: u32, parts: Vec<Typed>) -> Result<Head, FrontError>
    ensures { Answers (spec.concatenation line parts.items) result }
{
    match joined_type(1, parts.as_slice()) {
        Some(of) => Ok(Head::Value(Typed {
            expr: TypedExpr::Concatenation(exprs_of(alloc, parts)?, of),
            of,
        })),
        None => refuse(parts, WRONG_TYPE, line),
    }
}

/// `{ count { a, b } }`: at least once.
#[tactic(auto, using(crate::proofs::ProductionSteps::replication_right, crate::proofs::ProductionSteps::replication_wrong, crate::proofs::ProductionSteps::no_copies))]
pub fn replication(
    alloc: Global,
    line: u32,
    count: u32,
    parts: Vec<Typed>,
) -> Result<Head, FrontError>
    ensures { Answers (spec.replication line count parts.items) result }
{
    if count == 0 {
        return refuse(parts, WRONG_TYPE, line);
    }
    match joined_type(count, parts.as_slice()) {
        Some(of) => Ok(Head::Value(Typed {
            expr: TypedExpr::Replication(count, exprs_of(alloc, parts)?, of),
            of,
        })),
        None => refuse(parts, WRONG_TYPE, line),
    }
}
