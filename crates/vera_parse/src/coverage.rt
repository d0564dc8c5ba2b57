//! Coverage groups.

ghost use Rattle.grammar_laws.specs.Readers.{Reads};
ghost use Rattle.vera_parse.specs.CoverageReading as reading;
ghost use Rattle.parse_exprs.specs.ExpressionReading.{expr};
ghost use Rattle.parse_cursor.specs.ListReading as lists;
ghost use Rattle.parse_stmts.specs.PartReading.{edge};
ghost use Rattle.parse_cursor.specs.TokenReading.{maybe};
ghost use Rattle.std.specs.Prelude.{[], ◌∷◌};
ghost use Rattle.vera_ast.specs.declared.codes.TheConstants as code;

use four_state::{List, Text};
use grammar_laws::Fault;
use parse_cursor::cursor::Cursor;
use parse_cursor::repeats::{listed, some, title};
use parse_cursor::trees::list_from;
use parse_exprs::exprs::expr;
use parse_stmts::parts::edge;
use std::alloc::Global;
use vera_ast::codes::{
    ANY_MODE, ARROW, AT, BAD_STATE, BAD_TRANS, COLON, COMMA, COVERAGE_GROUP, DOT, EQUALS,
    LEFT_BRACE, LEFT_PARENTHESIS, RIGHT_BRACE, RIGHT_PARENTHESIS, SAMPLE, SAMPLE_EVENT, SEMICOLON,
    STATE, SYNC, TRANS,
};
use vera_ast::{Bin, BinKind, BinValue, CoverageGroup, Expr, GroupEvent, Sample, SyncEvent, with};

/// The words with which a bin begins.
const BIN_WORDS: [u8; 4] = [STATE, BAD_STATE, TRANS, BAD_TRANS];

/// `"sync" "(" "ANY" "," name ")"`.
#[tactic(auto, unfolding(crate::specs::CoverageReading::sync_event, grammar_laws::specs::Readers::and_then))]
fn sync_event(alloc: Global, tokens: &mut Cursor<'_>) -> Result<GroupEvent, Fault>
    ensures { Reads (reading.sync_event tokens.old.rest.now) result tokens.new.rest.now }
{
    let line = tokens.word(SYNC)?;
    tokens.word(LEFT_PARENTHESIS)?;
    tokens.word(ANY_MODE)?;
    tokens.word(COMMA)?;
    let name = title(alloc, tokens)?;
    let (name, _) = with(name, tokens.word(RIGHT_PARENTHESIS))?;
    Ok(GroupEvent::Sync(SyncEvent { line, name }))
}

/// `":" expr`.
#[tactic(auto, unfolding(parse_cursor::specs::ListReading::after, grammar_laws::specs::Readers::and_then))]
fn last_value(alloc: Global, tokens: &mut Cursor<'_>, depth: usize) -> Result<Expr, Fault>
    ensures { Reads (lists.after code.COLON (expr depth) tokens.old.rest.now) result tokens.new.rest.now }
{
    tokens.word(COLON)?;
    expr(alloc, tokens, depth)
}

/// `[ ":" expr ]`.
#[tactic(auto, unfolding(grammar_laws::specs::Readers::either, grammar_laws::specs::Readers::and_then))]
fn any_last_value(
    alloc: Global,
    tokens: &mut Cursor<'_>,
    depth: usize,
) -> Result<Option<Expr>, Fault>
    ensures { Reads (maybe (code.COLON ∷ []) (lists.after code.COLON (expr depth)) tokens.old.rest.now) result tokens.new.rest.now }
{
    if !tokens.begins(&[COLON]) {
        return Ok(None);
    }
    let last = last_value(alloc, tokens, depth)?;
    Ok(Some(last))
}

/// `val = expr [ ":" expr ]`.
#[tactic(auto, unfolding(crate::specs::CoverageReading::val, grammar_laws::specs::Readers::and_then))]
fn val(alloc: Global, tokens: &mut Cursor<'_>, depth: usize) -> Result<BinValue, Fault>
    ensures { Reads (reading.val (expr depth) tokens.old.rest.now) result tokens.new.rest.now }
{
    let first = expr(alloc, tokens, depth)?;
    let (first, last) = with(first, any_last_value(alloc, tokens, depth))?;
    Ok(BinValue {
        line: first.line(),
        first,
        last,
    })
}

/// Values with this sign between them.
#[tactic(auto)]
fn vals(
    alloc: Global,
    tokens: &mut Cursor<'_>,
    depth: usize,
    sign: u8,
) -> Result<List<BinValue>, Fault>
    ensures { Reads (lists.listed sign (reading.val (expr depth)) tokens.old.rest.now) result tokens.new.rest.now }
{
    listed(
        alloc,
        tokens,
        sign,
        |tokens: &mut Cursor<'_>| val(alloc, tokens, depth),
    )
}

/// `( "state" | "bad_state" ) name "(" val { "," val } ")" ";"`.
#[tactic(auto, unfolding(crate::specs::CoverageReading::state_bin, crate::specs::CoverageReading::state_word, grammar_laws::specs::Readers::and_then))]
fn state_bin(alloc: Global, tokens: &mut Cursor<'_>, depth: usize) -> Result<Bin, Fault>
    ensures { Reads (reading.state_bin (expr depth) tokens.old.rest.now) result tokens.new.rest.now }
{
    let (line, kind) = tokens.sign(&[(STATE, BinKind::State), (BAD_STATE, BinKind::BadState)])?;
    let name = title(alloc, tokens)?;
    let (name, _) = with(name, tokens.word(LEFT_PARENTHESIS))?;
    let (name, values) = with(name, vals(alloc, tokens, depth, COMMA))?;
    let bin = Bin {
        line,
        kind,
        name,
        values,
    };
    let (bin, _) = with(bin, tokens.word(RIGHT_PARENTHESIS))?;
    let (bin, _) = with(bin, tokens.word(SEMICOLON))?;
    Ok(bin)
}

/// `val "->" val { "->" val }`.
#[tactic(auto, unfolding(crate::specs::CoverageReading::steps, grammar_laws::specs::Readers::and_then))]
fn steps(alloc: Global, tokens: &mut Cursor<'_>, depth: usize) -> Result<List<BinValue>, Fault>
    ensures { Reads (reading.steps (expr depth) tokens.old.rest.now) result tokens.new.rest.now }
{
    let first = val(alloc, tokens, depth)?;
    let (first, _) = with(first, tokens.word(ARROW))?;
    let (first, more) = with(first, vals(alloc, tokens, depth, ARROW))?;
    Ok(list_from(alloc, first, more)?)
}

/// `( "trans" | "bad_trans" ) name "(" val "->" val { "->" val } ")" ";"`.
#[tactic(auto, unfolding(crate::specs::CoverageReading::trans_bin, crate::specs::CoverageReading::trans_word, grammar_laws::specs::Readers::and_then))]
fn trans_bin(alloc: Global, tokens: &mut Cursor<'_>, depth: usize) -> Result<Bin, Fault>
    ensures { Reads (reading.trans_bin (expr depth) tokens.old.rest.now) result tokens.new.rest.now }
{
    let (line, kind) = tokens.sign(&[
        (TRANS, BinKind::Transition),
        (BAD_TRANS, BinKind::BadTransition),
    ])?;
    let name = title(alloc, tokens)?;
    let (name, _) = with(name, tokens.word(LEFT_PARENTHESIS))?;
    let (name, values) = with(name, steps(alloc, tokens, depth))?;
    let bin = Bin {
        line,
        kind,
        name,
        values,
    };
    let (bin, _) = with(bin, tokens.word(RIGHT_PARENTHESIS))?;
    let (bin, _) = with(bin, tokens.word(SEMICOLON))?;
    Ok(bin)
}

/// A bin: of states, or of transitions.
#[tactic(auto, unfolding(crate::specs::CoverageReading::bin, grammar_laws::specs::Readers::either))]
fn bin(alloc: Global, tokens: &mut Cursor<'_>, depth: usize) -> Result<Bin, Fault>
    ensures { Reads (reading.bin (expr depth) tokens.old.rest.now) result tokens.new.rest.now }
{
    if tokens.begins(&[STATE, BAD_STATE]) {
        state_bin(alloc, tokens, depth)
    } else {
        trans_bin(alloc, tokens, depth)
    }
}

/// `"." name`.
#[tactic(auto, unfolding(parse_cursor::specs::ListReading::after, grammar_laws::specs::Readers::and_then))]
fn signal_name(alloc: Global, tokens: &mut Cursor<'_>) -> Result<Text, Fault>
    ensures { Reads (lists.after code.DOT lists.title tokens.old.rest.now) result tokens.new.rest.now }
{
    tokens.word(DOT)?;
    title(alloc, tokens)
}

/// `[ "." name ]`.
#[tactic(auto, unfolding(grammar_laws::specs::Readers::either, grammar_laws::specs::Readers::and_then))]
fn any_signal_name(alloc: Global, tokens: &mut Cursor<'_>) -> Result<Option<Text>, Fault>
    ensures { Reads (maybe (code.DOT ∷ []) (lists.after code.DOT lists.title) tokens.old.rest.now) result tokens.new.rest.now }
{
    if !tokens.begins(&[DOT]) {
        return Ok(None);
    }
    let name = signal_name(alloc, tokens)?;
    Ok(Some(name))
}

/// `bin { bin }`.
#[tactic(auto)]
fn bins(alloc: Global, tokens: &mut Cursor<'_>, depth: usize) -> Result<List<Bin>, Fault>
    ensures { Reads (lists.some (code.STATE ∷ code.BAD_STATE ∷ code.TRANS ∷ code.BAD_TRANS ∷ []) (reading.bin (expr depth)) tokens.old.rest.now) result tokens.new.rest.now }
{
    some(
        alloc,
        tokens,
        &BIN_WORDS,
        |tokens: &mut Cursor<'_>| bin(alloc, tokens, depth),
    )
}

/// `samp = "sample" name [ "." name ] "{" bin { bin } "}"`.
#[tactic(auto, unfolding(crate::specs::CoverageReading::samp, grammar_laws::specs::Readers::and_then))]
fn samp(alloc: Global, tokens: &mut Cursor<'_>, depth: usize) -> Result<Sample, Fault>
    ensures { Reads (reading.samp (expr depth) tokens.old.rest.now) result tokens.new.rest.now }
{
    let line = tokens.word(SAMPLE)?;
    let name = title(alloc, tokens)?;
    let head = with(name, any_signal_name(alloc, tokens))?;
    let (head, _) = with(head, tokens.word(LEFT_BRACE))?;
    let (head, bins) = with(head, bins(alloc, tokens, depth))?;
    let (name, signal) = head;
    let sample = Sample {
        line,
        name,
        signal,
        bins,
    };
    let (sample, _) = with(sample, tokens.word(RIGHT_BRACE))?;
    Ok(sample)
}

/// `event = edge | "sync" "(" "ANY" "," name ")"`.
#[tactic(auto, unfolding(crate::specs::CoverageReading::event, grammar_laws::specs::Readers::and_then, grammar_laws::specs::Readers::either))]
fn event(alloc: Global, tokens: &mut Cursor<'_>, depth: usize) -> Result<GroupEvent, Fault>
    ensures { Reads (reading.event (expr depth) edge tokens.old.rest.now) result tokens.new.rest.now }
{
    if tokens.begins(&[AT]) {
        let edge = edge(alloc, tokens)?;
        return Ok(GroupEvent::Edge(edge));
    }
    sync_event(alloc, tokens)
}

/// `samp { samp }`.
#[tactic(auto)]
fn samps(alloc: Global, tokens: &mut Cursor<'_>, depth: usize) -> Result<List<Sample>, Fault>
    ensures { Reads (lists.some (code.SAMPLE ∷ []) (reading.samp (expr depth)) tokens.old.rest.now) result tokens.new.rest.now }
{
    some(
        alloc,
        tokens,
        &[SAMPLE],
        |tokens: &mut Cursor<'_>| samp(alloc, tokens, depth),
    )
}

/// `group = "coverage_group" name "{" "sample_event" "=" event ";" samp { samp } "}"`.
#[tactic(auto, unfolding(crate::specs::CoverageReading::group, grammar_laws::specs::Readers::and_then))]
pub fn group(alloc: Global, tokens: &mut Cursor<'_>, depth: usize) -> Result<CoverageGroup, Fault>
    ensures { Reads (reading.group (expr depth) edge tokens.old.rest.now) result tokens.new.rest.now }
{
    let line = tokens.word(COVERAGE_GROUP)?;
    let name = title(alloc, tokens)?;
    let (name, _) = with(name, tokens.word(LEFT_BRACE))?;
    let (name, _) = with(name, tokens.word(SAMPLE_EVENT))?;
    let (name, _) = with(name, tokens.word(EQUALS))?;
    let head = with(name, event(alloc, tokens, depth))?;
    let (head, _) = with(head, tokens.word(SEMICOLON))?;
    let (head, samples) = with(head, samps(alloc, tokens, depth))?;
    let (name, event) = head;
    let group = CoverageGroup {
        line,
        name,
        event,
        samples,
    };
    let (group, _) = with(group, tokens.word(RIGHT_BRACE))?;
    Ok(group)
}
