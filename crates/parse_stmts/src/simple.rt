//! The statements that may begin with a postfix expression, with an `@`, or with `soft`: what several of them begin
//! with is read once, and the token behind it decides.

ghost use Rattle.std.specs.Prelude.{◌≡◌, ℕ, Option, Some, None, IfOk};
ghost use Rattle.grammar_laws.specs.Readers.{Reads};
ghost use Rattle.parse_exprs.specs.ExpressionReading.{expr as expr_at};
ghost use Rattle.parse_stmts.specs.PartReading.{post_at, free_at};
ghost use Rattle.parse_stmts.specs.Parts as parts;
ghost use Rattle.parse_stmts.specs.Simple as spec;
ghost use Rattle.parse_stmts.specs.SimpleReading as reading;

use crate::parts::{
    at, changed, compared, delay, delay_rest, edge_rest, other_at, plain_delay, second_delay, term,
};
use crate::statement_sets::FIRST_FREE;
use four_state::List;
use grammar_laws::Fault;
use parse_cursor::cursor::Cursor;
use parse_cursor::trees::list_from;
use parse_cursor::turns::list;
use parse_exprs::exprs::{expr, free, post};
use parse_exprs::sets::FIRST_POST;
use std::alloc::{AllocError, Global};
use vera_ast::codes::{
    AT, COMMA, EQUALS, LEFT_PARENTHESIS, LESS_EQUAL, MINUS_EQUALS, MINUS_MINUS, NAME, NUMBER,
    PLUS_EQUALS, PLUS_PLUS, POSEDGE, SEMICOLON, SOFT,
};
use vera_ast::{
    Delay, Drive, DriveOperator, Expect, Expr, Postfix, Step, Stmt, Term, Window, WindowKind, with,
};

/// `";"` after a step.
#[tactic(auto, unfolding(crate::specs::SimpleReading::stepped, grammar_laws::specs::Readers::and_then))]
fn stepped(tokens: &mut Cursor<'_>, depth: usize, step: Step) -> Result<Stmt, Fault>
    ensures { Reads (reading.stepped (expr_at depth) (post_at depth) (free_at depth) step tokens.old.rest.now) result tokens.new.rest.now }
{
    let (step, _) = with(step, tokens.word(SEMICOLON))?;
    Ok(Stmt::Step(step))
}

/// `";"` after a postfix expression.
#[tactic(auto, unfolding(crate::specs::SimpleReading::called, grammar_laws::specs::Readers::and_then))]
fn called(tokens: &mut Cursor<'_>, depth: usize, value: Postfix) -> Result<Stmt, Fault>
    ensures { Reads (reading.called (expr_at depth) (post_at depth) (free_at depth) value tokens.old.rest.now) result tokens.new.rest.now }
{
    let (value, _) = with(value, tokens.word(SEMICOLON))?;
    Ok(Stmt::Call(value))
}

/// `"=" | "<="`.
#[tactic(auto, unfolding(crate::specs::SimpleReading::drive_sign))]
fn drive_sign(tokens: &mut Cursor<'_>, depth: usize) -> Result<(u32, DriveOperator), Fault>
    ensures { Reads (reading.drive_sign (expr_at depth) (post_at depth) (free_at depth) tokens.old.rest.now) result tokens.new.rest.now }
{
    tokens.sign(&[
        (EQUALS, DriveOperator::Assign),
        (LESS_EQUAL, DriveOperator::Arrow),
    ])
}

/// `( "=" | "<=" ) expr ";"`.
#[tactic(auto, unfolding(crate::specs::SimpleReading::driven_value, grammar_laws::specs::Readers::and_then))]
fn driven_value(
    alloc: Global,
    tokens: &mut Cursor<'_>,
    depth: usize,
) -> Result<(DriveOperator, Expr), Fault>
    ensures { Reads (reading.driven_value (expr_at depth) (post_at depth) (free_at depth) tokens.old.rest.now) result tokens.new.rest.now }
{
    let (_line, operator) = drive_sign(tokens, depth)?;
    let value = expr(alloc, tokens, depth)?;
    let (value, _) = with(value, tokens.word(SEMICOLON))?;
    Ok((operator, value))
}

/// `( "=" | "<=" ) expr ";"` after `"@" delay` and a signal.
#[tactic(auto, unfolding(crate::specs::SimpleReading::driven_at, grammar_laws::specs::Readers::and_then))]
fn driven_at(
    alloc: Global,
    tokens: &mut Cursor<'_>,
    depth: usize,
    mark: (u32, WindowKind),
    first: Delay,
    signal: Postfix,
) -> Result<Stmt, Fault>
    ensures { Reads (reading.driven_at (expr_at depth) (post_at depth) (free_at depth) mark first signal tokens.old.rest.now) result tokens.new.rest.now }
{
    let (parts, driven) = with((first, signal), driven_value(alloc, tokens, depth))?;
    let (first, signal) = parts;
    let (operator, value) = driven;
    Ok(Stmt::Drive(Drive {
        line: mark.0,
        delay: Some(first),
        signal,
        operator,
        value,
    }))
}

/// `"<=" expr ";"`.
#[tactic(auto, unfolding(crate::specs::SimpleReading::arrow_value, grammar_laws::specs::Readers::and_then))]
fn arrow_value(alloc: Global, tokens: &mut Cursor<'_>, depth: usize) -> Result<Expr, Fault>
    ensures { Reads (reading.arrow_value (expr_at depth) (post_at depth) (free_at depth) tokens.old.rest.now) result tokens.new.rest.now }
{
    tokens.word(LESS_EQUAL)?;
    let value = expr(alloc, tokens, depth)?;
    let (value, _) = with(value, tokens.word(SEMICOLON))?;
    Ok(value)
}

/// `"<=" expr ";"` after a signal.
#[tactic(auto, unfolding(crate::specs::SimpleReading::driven, grammar_laws::specs::Readers::and_then))]
fn driven(
    alloc: Global,
    tokens: &mut Cursor<'_>,
    depth: usize,
    signal: Postfix,
) -> Result<Stmt, Fault>
    ensures { Reads (reading.driven (expr_at depth) (post_at depth) (free_at depth) signal tokens.old.rest.now) result tokens.new.rest.now }
{
    let (signal, value) = with(signal, arrow_value(alloc, tokens, depth))?;
    Ok(Stmt::Drive(Drive {
        line: signal.line,
        delay: None,
        signal,
        operator: DriveOperator::Arrow,
        value,
    }))
}

/// `"," term`.
#[tactic(auto, unfolding(crate::specs::SimpleReading::next_term, grammar_laws::specs::Readers::and_then))]
fn next_term(alloc: Global, tokens: &mut Cursor<'_>, depth: usize) -> Result<Term, Fault>
    ensures { Reads (reading.next_term (expr_at depth) (post_at depth) (free_at depth) tokens.old.rest.now) result tokens.new.rest.now }
{
    tokens.word(COMMA)?;
    term(alloc, tokens, depth)
}

/// The line of an expect's first token.
fn expect_line(window: &Option<Window>, before: Option<u32>, line: u32) -> u32
    ensures { result ≡ spec.expect_line window.now before line }
{
    match window {
        Some(window) => window.line,
        None => before.unwrap_or(line),
    }
}

/// `[ "soft" ]`, as its line.
#[tactic(auto, unfolding(grammar_laws::specs::Readers::and_then, grammar_laws::specs::Readers::either))]
fn soft(tokens: &mut Cursor<'_>) -> Result<Option<u32>, Fault>
    ensures { Reads (reading.soft tokens.old.rest.now) result tokens.new.rest.now }
{
    if !tokens.begins(&[SOFT]) {
        return Ok(None);
    }
    let line = tokens.word(SOFT)?;
    Ok(Some(line))
}

/// `[ "soft" ] ";"`.
#[tactic(auto, unfolding(crate::specs::SimpleReading::expect_end, grammar_laws::specs::Readers::and_then))]
fn expect_end(tokens: &mut Cursor<'_>, depth: usize) -> Result<Option<u32>, Fault>
    ensures { Reads (reading.expect_end (expr_at depth) (post_at depth) (free_at depth) tokens.old.rest.now) result tokens.new.rest.now }
{
    let after = soft(tokens)?;
    tokens.word(SEMICOLON)?;
    Ok(after)
}

/// `{ "," term } [ "soft" ] ";"`.
#[tactic(auto, unfolding(crate::specs::SimpleReading::expect_tail, grammar_laws::specs::Readers::and_then))]
fn expect_tail(
    alloc: Global,
    tokens: &mut Cursor<'_>,
    depth: usize,
) -> Result<(List<Term>, Option<u32>), Fault>
    ensures { Reads (reading.expect_tail (expr_at depth) (post_at depth) (free_at depth) tokens.old.rest.now) result tokens.new.rest.now }
{
    let more = list(
        alloc,
        tokens,
        &[COMMA],
        |tokens: &mut Cursor<'_>| next_term(alloc, tokens, depth),
    )?;
    with(more, expect_end(tokens, depth))
}

/// An expect of these parts.
fn expected(
    alloc: Global,
    window: Option<Window>,
    before: Option<u32>,
    first: Term,
    more: List<Term>,
    after: Option<u32>,
) -> Result<Expect, AllocError>
    ensures { IfOk result (λ expect. expect ≡ spec.expected window before first more after) }
{
    let line = expect_line(&window, before, first.line);
    let (window, terms) = with(window, list_from(alloc, first, more))?;
    Ok(Expect {
        line,
        window,
        soft_before: before.is_some(),
        terms,
        soft_after: after.is_some(),
    })
}

/// `{ "," term } [ "soft" ] ";"` after an expect's first term.
#[tactic(auto, unfolding(crate::specs::SimpleReading::expect_rest, grammar_laws::specs::Readers::and_then))]
fn expect_rest(
    alloc: Global,
    tokens: &mut Cursor<'_>,
    depth: usize,
    window: Option<Window>,
    before: Option<u32>,
    first: Term,
) -> Result<Stmt, Fault>
    ensures { Reads (reading.expect_rest (expr_at depth) (post_at depth) (free_at depth) window before first tokens.old.rest.now) result tokens.new.rest.now }
{
    let (parts, tail) = with((window, first), expect_tail(alloc, tokens, depth))?;
    let (window, first) = parts;
    let (more, after) = tail;
    let expect = expected(alloc, window, before, first, more, after)?;
    Ok(Stmt::Expect(expect))
}

/// `soft` and the terms, after this window or none.
#[tactic(auto, unfolding(crate::specs::SimpleReading::soft_term, grammar_laws::specs::Readers::and_then))]
fn soft_term(
    alloc: Global,
    tokens: &mut Cursor<'_>,
    depth: usize,
    window: Option<Window>,
) -> Result<Stmt, Fault>
    ensures { Reads (reading.soft_term (expr_at depth) (post_at depth) (free_at depth) window tokens.old.rest.now) result tokens.new.rest.now }
{
    let (window, line) = with(window, tokens.word(SOFT))?;
    let (window, first) = with(window, term(alloc, tokens, depth))?;
    expect_rest(alloc, tokens, depth, window, Some(line), first)
}

/// What follows a window.
#[tactic(auto, unfolding(crate::specs::SimpleReading::any_term, grammar_laws::specs::Readers::and_then, grammar_laws::specs::Readers::either))]
fn any_term(
    alloc: Global,
    tokens: &mut Cursor<'_>,
    depth: usize,
    window: Window,
) -> Result<Stmt, Fault>
    ensures { Reads (reading.any_term (expr_at depth) (post_at depth) (free_at depth) window tokens.old.rest.now) result tokens.new.rest.now }
{
    if tokens.begins(&[SOFT]) {
        return soft_term(alloc, tokens, depth, Some(window));
    }
    let (window, first) = with(window, term(alloc, tokens, depth))?;
    expect_rest(alloc, tokens, depth, Some(window), None, first)
}

/// What follows a postfix expression at the start.
#[tactic(auto, unfolding(crate::specs::SimpleReading::begun_by_post, grammar_laws::specs::Readers::and_then, grammar_laws::specs::Readers::either))]
fn begun_by_post(
    alloc: Global,
    tokens: &mut Cursor<'_>,
    depth: usize,
    value: Postfix,
) -> Result<Stmt, Fault>
    ensures { Reads (reading.begun_by_post (expr_at depth) (post_at depth) (free_at depth) value tokens.old.rest.now) result tokens.new.rest.now }
{
    if tokens.begins(&[EQUALS, PLUS_EQUALS, MINUS_EQUALS, PLUS_PLUS, MINUS_MINUS]) {
        let step = changed(alloc, tokens, depth, value)?;
        return stepped(tokens, depth, step);
    }
    if tokens.begins(&[SEMICOLON]) {
        return called(tokens, depth, value);
    }
    if tokens.begins(&[LESS_EQUAL]) {
        return driven(alloc, tokens, depth, value);
    }
    let first = compared(alloc, tokens, depth, value)?;
    expect_rest(alloc, tokens, depth, None, None, first)
}

/// A window with one delay.
fn window_of(mark: (u32, WindowKind), first: Delay) -> Window
    ensures { result ≡ parts.window_of mark first None }
{
    Window {
        line: mark.0,
        kind: mark.1,
        first,
        second: None,
    }
}

/// What follows `"@" delay` and a postfix expression.
#[tactic(auto, unfolding(crate::specs::SimpleReading::timed_signal, grammar_laws::specs::Readers::and_then, grammar_laws::specs::Readers::either))]
fn timed_signal(
    alloc: Global,
    tokens: &mut Cursor<'_>,
    depth: usize,
    mark: (u32, WindowKind),
    first: Delay,
    signal: Postfix,
) -> Result<Stmt, Fault>
    ensures { Reads (reading.timed_signal (expr_at depth) (post_at depth) (free_at depth) mark first signal tokens.old.rest.now) result tokens.new.rest.now }
{
    if tokens.begins(&[EQUALS, LESS_EQUAL]) {
        return driven_at(alloc, tokens, depth, mark, first, signal);
    }
    let (first, term) = with(first, compared(alloc, tokens, depth, signal))?;
    expect_rest(
        alloc,
        tokens,
        depth,
        Some(window_of(mark, first)),
        None,
        term,
    )
}

/// `"," delay` and what follows this window.
#[tactic(auto, unfolding(crate::specs::SimpleReading::second_term, grammar_laws::specs::Readers::and_then))]
fn second_term(
    alloc: Global,
    tokens: &mut Cursor<'_>,
    depth: usize,
    mark: (u32, WindowKind),
    first: Delay,
) -> Result<Stmt, Fault>
    ensures { Reads (reading.second_term (expr_at depth) (post_at depth) (free_at depth) mark first tokens.old.rest.now) result tokens.new.rest.now }
{
    let (first, second) = with(first, second_delay(alloc, tokens, depth))?;
    let window = Window {
        line: mark.0,
        kind: mark.1,
        first,
        second: Some(second),
    };
    any_term(alloc, tokens, depth, window)
}

/// What follows `"@" delay`.
#[tactic(auto, unfolding(crate::specs::SimpleReading::timed, grammar_laws::specs::Readers::and_then, grammar_laws::specs::Readers::either))]
fn timed(
    alloc: Global,
    tokens: &mut Cursor<'_>,
    depth: usize,
    mark: (u32, WindowKind),
    first: Delay,
) -> Result<Stmt, Fault>
    ensures { Reads (reading.timed (expr_at depth) (post_at depth) (free_at depth) mark first tokens.old.rest.now) result tokens.new.rest.now }
{
    if tokens.begins(&FIRST_FREE) {
        let (first, signal) = with(first, free(alloc, tokens, depth))?;
        return timed_signal(alloc, tokens, depth, mark, first, signal);
    }
    if tokens.begins(&[SOFT]) {
        return soft_term(alloc, tokens, depth, Some(window_of(mark, first)));
    }
    second_term(alloc, tokens, depth, mark, first)
}

/// `"posedge" .. ")" ";"` of an edge whose `@` is on this line.
#[tactic(auto, unfolding(crate::specs::SimpleReading::edge_end, grammar_laws::specs::Readers::and_then))]
fn edge_end(alloc: Global, tokens: &mut Cursor<'_>, depth: usize, line: u32) -> Result<Stmt, Fault>
    ensures { Reads (reading.edge_end (expr_at depth) (post_at depth) (free_at depth) line tokens.old.rest.now) result tokens.new.rest.now }
{
    let edge = edge_rest(alloc, tokens, line)?;
    let (edge, _) = with(edge, tokens.word(SEMICOLON))?;
    Ok(Stmt::Edge(edge))
}

/// What follows `"@" "("`, the `(` on this line.
#[tactic(auto, unfolding(crate::specs::SimpleReading::parenthesized, grammar_laws::specs::Readers::and_then, grammar_laws::specs::Readers::either))]
fn parenthesized(
    alloc: Global,
    tokens: &mut Cursor<'_>,
    depth: usize,
    mark: (u32, WindowKind),
    line: u32,
) -> Result<Stmt, Fault>
    ensures { Reads (reading.parenthesized (expr_at depth) (post_at depth) (free_at depth) mark line tokens.old.rest.now) result tokens.new.rest.now }
{
    if tokens.begins(&[POSEDGE]) {
        return edge_end(alloc, tokens, depth, mark.0);
    }
    let first = delay_rest(alloc, tokens, depth, line)?;
    timed(alloc, tokens, depth, mark, first)
}

/// What follows `"@"`.
#[tactic(auto, unfolding(crate::specs::SimpleReading::begun_by_at, grammar_laws::specs::Readers::and_then, grammar_laws::specs::Readers::either))]
fn begun_by_at(
    alloc: Global,
    tokens: &mut Cursor<'_>,
    depth: usize,
    mark: (u32, WindowKind),
) -> Result<Stmt, Fault>
    ensures { Reads (reading.begun_by_at (expr_at depth) (post_at depth) (free_at depth) mark tokens.old.rest.now) result tokens.new.rest.now }
{
    if tokens.begins(&[NUMBER, NAME]) {
        let first = plain_delay(alloc, tokens)?;
        return timed(alloc, tokens, depth, mark, first);
    }
    let line = tokens.word(LEFT_PARENTHESIS)?;
    parenthesized(alloc, tokens, depth, mark, line)
}

/// What follows `"@@"` or `"@@@"`.
#[tactic(auto, unfolding(crate::specs::SimpleReading::begun_by_other_at, crate::specs::SimpleReading::windowed, grammar_laws::specs::Readers::and_then, grammar_laws::specs::Readers::either))]
fn begun_by_other_at(
    alloc: Global,
    tokens: &mut Cursor<'_>,
    depth: usize,
    mark: (u32, WindowKind),
) -> Result<Stmt, Fault>
    ensures { Reads (reading.begun_by_other_at (expr_at depth) (post_at depth) (free_at depth) mark tokens.old.rest.now) result tokens.new.rest.now }
{
    let first = delay(alloc, tokens, depth)?;
    if tokens.begins(&[COMMA]) {
        return second_term(alloc, tokens, depth, mark, first);
    }
    any_term(alloc, tokens, depth, window_of(mark, first))
}

/// A statement that may begin with a postfix expression, with an `@`, or with `soft`.
#[tactic(auto, unfolding(crate::specs::SimpleReading::simple_stmt, grammar_laws::specs::Readers::and_then, grammar_laws::specs::Readers::either))]
pub fn simple_stmt(alloc: Global, tokens: &mut Cursor<'_>, depth: usize) -> Result<Stmt, Fault>
    ensures { Reads (reading.simple_stmt (expr_at depth) (post_at depth) (free_at depth) tokens.old.rest.now) result tokens.new.rest.now }
{
    if tokens.begins(&FIRST_POST) {
        let value = post(alloc, tokens, depth)?;
        return begun_by_post(alloc, tokens, depth, value);
    }
    if tokens.begins(&[SOFT]) {
        return soft_term(alloc, tokens, depth, None);
    }
    if tokens.begins(&[AT]) {
        let mark = at(tokens)?;
        return begun_by_at(alloc, tokens, depth, mark);
    }
    let mark = other_at(tokens)?;
    begun_by_other_at(alloc, tokens, depth, mark)
}
