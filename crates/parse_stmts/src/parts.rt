//! What statements are made of: edges, delays, steps and terms.

ghost use Rattle.std.specs.Prelude.{◌≡◌, ℕ};
ghost use Rattle.grammar_laws.specs.Readers.{Reads};
ghost use Rattle.parse_exprs.specs.ExpressionReading as expressions;
ghost use Rattle.parse_stmts.specs.PartReading as reading;

use grammar_laws::Fault;
use parse_cursor::cursor::Cursor;
use parse_exprs::exprs::{expr, free};
use std::alloc::Global;
use vera_ast::codes::{
    AT, AT_AT, AT_AT_AT, CLOCK, COMMA, DOT, EQUAL, EQUALS, LEFT_PARENTHESIS, MINUS_EQUALS,
    MINUS_MINUS, NAME, NOT_EQUAL, NUMBER, PLUS_EQUALS, PLUS_PLUS, POSEDGE, RIGHT_PARENTHESIS,
};
use vera_ast::{
    Change, Delay, DelayForm, Edge, EdgeClock, Postfix, Step, Term, TermOperator, WindowKind, with,
};

/// `"@"`, with its line, as it begins a window.
#[tactic(auto, unfolding(crate::specs::PartReading::at))]
pub fn at(tokens: &mut Cursor<'_>) -> Result<(u32, WindowKind), Fault>
    ensures { Reads (reading.at tokens.old.rest.now) result tokens.new.rest.now }
{
    tokens.sign(&[(AT, WindowKind::Simple)])
}

/// `"@@" | "@@@"`, with its line.
#[tactic(auto, unfolding(crate::specs::PartReading::other_at))]
pub fn other_at(tokens: &mut Cursor<'_>) -> Result<(u32, WindowKind), Fault>
    ensures { Reads (reading.other_at tokens.old.rest.now) result tokens.new.rest.now }
{
    tokens.sign(&[
        (AT_AT, WindowKind::Full),
        (AT_AT_AT, WindowKind::Restricted),
    ])
}

/// `"CLOCK" | name "." name`.
#[tactic(auto, unfolding(crate::specs::PartReading::edge_clock, grammar_laws::specs::Readers::and_then, grammar_laws::specs::Readers::either))]
fn edge_clock(alloc: Global, tokens: &mut Cursor<'_>) -> Result<EdgeClock, Fault>
    ensures { Reads (reading.edge_clock tokens.old.rest.now) result tokens.new.rest.now }
{
    if tokens.begins(&[CLOCK]) {
        tokens.word(CLOCK)?;
        return Ok(EdgeClock::Clock);
    }
    let interface = tokens.name(alloc)?;
    let (interface, _) = with(interface, tokens.word(DOT))?;
    let (interface, signal) = with(interface, tokens.name(alloc))?;
    Ok(EdgeClock::Signal(interface.text, signal.text))
}

/// `"posedge" ( "CLOCK" | name "." name ) ")"` of an edge whose `@` is on this line.
#[tactic(auto, unfolding(crate::specs::PartReading::edge_rest, grammar_laws::specs::Readers::and_then))]
pub fn edge_rest(alloc: Global, tokens: &mut Cursor<'_>, line: u32) -> Result<Edge, Fault>
    ensures { Reads (reading.edge_rest line tokens.old.rest.now) result tokens.new.rest.now }
{
    tokens.word(POSEDGE)?;
    let clock = edge_clock(alloc, tokens)?;
    let (clock, _) = with(clock, tokens.word(RIGHT_PARENTHESIS))?;
    Ok(Edge {
        line,
        negative: false,
        clock,
    })
}

/// `"@" "(" "posedge" ( "CLOCK" | name "." name ) ")"`.
#[tactic(auto, unfolding(crate::specs::PartReading::edge, grammar_laws::specs::Readers::and_then))]
pub fn edge(alloc: Global, tokens: &mut Cursor<'_>) -> Result<Edge, Fault>
    ensures { Reads (reading.edge tokens.old.rest.now) result tokens.new.rest.now }
{
    let (line, _kind) = at(tokens)?;
    tokens.word(LEFT_PARENTHESIS)?;
    edge_rest(alloc, tokens, line)
}

/// `number | name`.
#[tactic(auto, unfolding(crate::specs::PartReading::plain_delay, grammar_laws::specs::Readers::and_then, grammar_laws::specs::Readers::either))]
pub fn plain_delay(alloc: Global, tokens: &mut Cursor<'_>) -> Result<Delay, Fault>
    ensures { Reads (reading.plain_delay tokens.old.rest.now) result tokens.new.rest.now }
{
    if tokens.begins(&[NUMBER]) {
        let count = tokens.number()?;
        return Ok(Delay {
            line: count.line,
            form: DelayForm::Number(count.number),
        });
    }
    let name = tokens.name(alloc)?;
    Ok(Delay {
        line: name.line,
        form: DelayForm::Name(name.text),
    })
}

/// `expr ")"` of a delay whose `(` is on this line.
#[tactic(auto, unfolding(crate::specs::PartReading::delay_rest, grammar_laws::specs::Readers::and_then))]
pub fn delay_rest(
    alloc: Global,
    tokens: &mut Cursor<'_>,
    depth: usize,
    line: u32,
) -> Result<Delay, Fault>
    ensures { Reads (reading.delay_rest (expressions.expr depth) line tokens.old.rest.now) result tokens.new.rest.now }
{
    let count = expr(alloc, tokens, depth)?;
    let (count, _) = with(count, tokens.word(RIGHT_PARENTHESIS))?;
    Ok(Delay {
        line,
        form: DelayForm::Parentheses(count),
    })
}

/// `number | name | "(" expr ")"`.
#[tactic(auto, unfolding(crate::specs::PartReading::delay, grammar_laws::specs::Readers::and_then, grammar_laws::specs::Readers::either))]
pub fn delay(alloc: Global, tokens: &mut Cursor<'_>, depth: usize) -> Result<Delay, Fault>
    ensures { Reads (reading.delay (expressions.expr depth) tokens.old.rest.now) result tokens.new.rest.now }
{
    if tokens.begins(&[NUMBER, NAME]) {
        return plain_delay(alloc, tokens);
    }
    let line = tokens.word(LEFT_PARENTHESIS)?;
    delay_rest(alloc, tokens, depth, line)
}

/// `"," delay`.
#[tactic(auto, unfolding(crate::specs::PartReading::second_delay, grammar_laws::specs::Readers::and_then))]
pub fn second_delay(alloc: Global, tokens: &mut Cursor<'_>, depth: usize) -> Result<Delay, Fault>
    ensures { Reads (reading.second_delay (expressions.expr depth) tokens.old.rest.now) result tokens.new.rest.now }
{
    tokens.word(COMMA)?;
    delay(alloc, tokens, depth)
}

/// `"=" expr`.
#[tactic(auto, unfolding(crate::specs::PartReading::assigned, grammar_laws::specs::Readers::and_then))]
fn assigned(alloc: Global, tokens: &mut Cursor<'_>, depth: usize) -> Result<Change, Fault>
    ensures { Reads (reading.assigned (expressions.expr depth) tokens.old.rest.now) result tokens.new.rest.now }
{
    tokens.word(EQUALS)?;
    Ok(Change::Assign(expr(alloc, tokens, depth)?))
}

/// `"+=" expr`.
#[tactic(auto, unfolding(crate::specs::PartReading::added, grammar_laws::specs::Readers::and_then))]
fn added(alloc: Global, tokens: &mut Cursor<'_>, depth: usize) -> Result<Change, Fault>
    ensures { Reads (reading.added (expressions.expr depth) tokens.old.rest.now) result tokens.new.rest.now }
{
    tokens.word(PLUS_EQUALS)?;
    Ok(Change::Add(expr(alloc, tokens, depth)?))
}

/// `"-=" expr`.
#[tactic(auto, unfolding(crate::specs::PartReading::subtracted, grammar_laws::specs::Readers::and_then))]
fn subtracted(alloc: Global, tokens: &mut Cursor<'_>, depth: usize) -> Result<Change, Fault>
    ensures { Reads (reading.subtracted (expressions.expr depth) tokens.old.rest.now) result tokens.new.rest.now }
{
    tokens.word(MINUS_EQUALS)?;
    Ok(Change::Subtract(expr(alloc, tokens, depth)?))
}

/// `"++" | "--"`.
#[tactic(auto, unfolding(crate::specs::PartReading::counted, grammar_laws::specs::Readers::and_then, grammar_laws::specs::Readers::either))]
fn counted(tokens: &mut Cursor<'_>) -> Result<Change, Fault>
    ensures { Reads (reading.counted tokens.old.rest.now) result tokens.new.rest.now }
{
    if tokens.begins(&[PLUS_PLUS]) {
        tokens.word(PLUS_PLUS)?;
        return Ok(Change::Increment);
    }
    tokens.word(MINUS_MINUS)?;
    Ok(Change::Decrement)
}

/// `( "=" | "+=" | "-=" ) expr | "++" | "--"`.
#[tactic(auto, unfolding(crate::specs::PartReading::change, grammar_laws::specs::Readers::either))]
fn change(alloc: Global, tokens: &mut Cursor<'_>, depth: usize) -> Result<Change, Fault>
    ensures { Reads (reading.change (expressions.expr depth) tokens.old.rest.now) result tokens.new.rest.now }
{
    if tokens.begins(&[EQUALS]) {
        assigned(alloc, tokens, depth)
    } else if tokens.begins(&[PLUS_EQUALS]) {
        added(alloc, tokens, depth)
    } else if tokens.begins(&[MINUS_EQUALS]) {
        subtracted(alloc, tokens, depth)
    } else {
        counted(tokens)
    }
}

/// A change of this target.
#[tactic(auto, unfolding(crate::specs::PartReading::changed, grammar_laws::specs::Readers::and_then))]
pub fn changed(
    alloc: Global,
    tokens: &mut Cursor<'_>,
    depth: usize,
    target: Postfix,
) -> Result<Step, Fault>
    ensures { Reads (reading.changed (expressions.expr depth) target tokens.old.rest.now) result tokens.new.rest.now }
{
    let (target, change) = with(target, change(alloc, tokens, depth))?;
    Ok(Step {
        line: target.line,
        target,
        change,
    })
}

/// A step that isn't at the start of a statement.
#[tactic(auto, unfolding(crate::specs::PartReading::step, grammar_laws::specs::Readers::and_then))]
pub fn step(alloc: Global, tokens: &mut Cursor<'_>, depth: usize) -> Result<Step, Fault>
    ensures { Reads (reading.step (expressions.expr depth) (expressions.free (expressions.expr depth) (expressions.unary depth)) tokens.old.rest.now) result tokens.new.rest.now }
{
    let target = free(alloc, tokens, depth)?;
    changed(alloc, tokens, depth, target)
}

/// `( "==" | "!=" ) expr` of this signal.
#[tactic(auto, unfolding(crate::specs::PartReading::compared, grammar_laws::specs::Readers::and_then))]
pub fn compared(
    alloc: Global,
    tokens: &mut Cursor<'_>,
    depth: usize,
    signal: Postfix,
) -> Result<Term, Fault>
    ensures { Reads (reading.compared (expressions.expr depth) signal tokens.old.rest.now) result tokens.new.rest.now }
{
    let sign = tokens.sign(&[
        (EQUAL, TermOperator::Equal),
        (NOT_EQUAL, TermOperator::NotEqual),
    ]);
    let (signal, (_line, operator)) = with(signal, sign)?;
    let (signal, value) = with(signal, expr(alloc, tokens, depth))?;
    Ok(Term {
        line: signal.line,
        signal,
        operator,
        value,
    })
}

/// A term that isn't at the start of a statement.
#[tactic(auto, unfolding(crate::specs::PartReading::term, grammar_laws::specs::Readers::and_then))]
pub fn term(alloc: Global, tokens: &mut Cursor<'_>, depth: usize) -> Result<Term, Fault>
    ensures { Reads (reading.term (expressions.expr depth) (expressions.free (expressions.expr depth) (expressions.unary depth)) tokens.old.rest.now) result tokens.new.rest.now }
{
    let signal = free(alloc, tokens, depth)?;
    compared(alloc, tokens, depth, signal)
}
