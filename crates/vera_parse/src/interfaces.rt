//! Interfaces.

ghost use Rattle.std.specs.Prelude.{[], ◌∷◌};
ghost use Rattle.grammar_laws.specs.Readers.{Reads};
ghost use Rattle.parse_cursor.specs.TokenReading.{many};
ghost use Rattle.vera_ast.specs.declared.codes.TheConstants as code;
ghost use Rattle.parse_stmts.specs.DeclarationReading.{range};
ghost use Rattle.parse_exprs.specs.ExpressionReading.{expr};
ghost use Rattle.vera_parse.specs.InterfaceReading as reading;

use four_state::List;
use grammar_laws::Fault;
use parse_cursor::cursor::Cursor;
use parse_cursor::repeats::{flag, title};
use parse_cursor::turns::{list, maybe};
use parse_stmts::decls::any_range;
use std::alloc::Global;
use vera_ast::codes::{
    CLOCK, HASH, INPUT, INTERFACE, LEFT_BRACE, MINUS, NHOLD, NSAMPLE, OUTPUT, PHOLD, PSAMPLE,
    RIGHT_BRACE, SEMICOLON,
};
use vera_ast::{Direction, Interface, Signal, SignalForm, SignalKind, SignalTime, Skew, with};

/// `"#" [ "-" ] number`.
#[tactic(auto, unfolding(crate::specs::InterfaceReading::skew, grammar_laws::specs::Readers::and_then))]
fn skew(tokens: &mut Cursor<'_>) -> Result<Skew, Fault>
    ensures { Reads (reading.skew tokens.old.rest.now) result tokens.new.rest.now }
{
    tokens.word(HASH)?;
    let is_negative = flag(tokens, MINUS)?;
    let amount = tokens.number()?;
    Ok(Skew {
        is_negative,
        amount: amount.number,
    })
}

/// When a signal is driven or sampled, with its line.
#[tactic(auto, unfolding(crate::specs::InterfaceReading::signal_time))]
fn signal_time(tokens: &mut Cursor<'_>) -> Result<(u32, SignalTime), Fault>
    ensures { Reads (reading.signal_time tokens.old.rest.now) result tokens.new.rest.now }
{
    tokens.sign(&[
        (PHOLD, SignalTime::PositiveHold),
        (PSAMPLE, SignalTime::PositiveSample),
        (NHOLD, SignalTime::NegativeHold),
        (NSAMPLE, SignalTime::NegativeSample),
    ])
}

/// `kind = "CLOCK" | ( "PHOLD" | "PSAMPLE" | "NHOLD" | "NSAMPLE" ) [ "#" [ "-" ] number ]`.
#[tactic(auto, unfolding(crate::specs::InterfaceReading::kind, crate::specs::InterfaceReading::clock_kind, crate::specs::InterfaceReading::timed_kind, grammar_laws::specs::Readers::and_then, grammar_laws::specs::Readers::either))]
fn kind(tokens: &mut Cursor<'_>) -> Result<SignalKind, Fault>
    ensures { Reads (reading.kind tokens.old.rest.now) result tokens.new.rest.now }
{
    if tokens.begins(&[CLOCK]) {
        let line = tokens.word(CLOCK)?;
        return Ok(SignalKind {
            line,
            form: SignalForm::Clock,
        });
    }
    let (line, time) = signal_time(tokens)?;
    let skew = maybe(tokens, &[HASH], |tokens: &mut Cursor<'_>| skew(tokens))?;
    Ok(SignalKind {
        line,
        form: SignalForm::Timed(time, skew),
    })
}

/// `"input" | "output"`, with its line.
#[tactic(auto, unfolding(crate::specs::InterfaceReading::direction))]
fn direction(tokens: &mut Cursor<'_>) -> Result<(u32, Direction), Fault>
    ensures { Reads (reading.direction tokens.old.rest.now) result tokens.new.rest.now }
{
    tokens.sign(&[(INPUT, Direction::Input), (OUTPUT, Direction::Output)])
}

/// `signal = ( "input" | "output" ) [ range ] name kind ";"`.
#[tactic(auto, unfolding(crate::specs::InterfaceReading::signal, grammar_laws::specs::Readers::and_then))]
fn signal(alloc: Global, tokens: &mut Cursor<'_>, depth: usize) -> Result<Signal, Fault>
    ensures { Reads (reading.signal (range (expr depth)) tokens.old.rest.now) result tokens.new.rest.now }
{
    let (line, direction) = direction(tokens)?;
    let range = any_range(alloc, tokens, depth)?;
    let (range, name) = with(range, title(alloc, tokens))?;
    let ((range, name), kind) = with((range, name), kind(tokens))?;
    let signal = Signal {
        line,
        direction,
        range,
        name,
        kind,
    };
    let (signal, _) = with(signal, tokens.word(SEMICOLON))?;
    Ok(signal)
}

/// `{ signal }`.
#[tactic(auto)]
fn signals(alloc: Global, tokens: &mut Cursor<'_>, depth: usize) -> Result<List<Signal>, Fault>
    ensures { Reads (many (code.INPUT ∷ code.OUTPUT ∷ []) (reading.signal (range (expr depth))) tokens.old.rest.now) result tokens.new.rest.now }
{
    list(
        alloc,
        tokens,
        &[INPUT, OUTPUT],
        |tokens: &mut Cursor<'_>| signal(alloc, tokens, depth),
    )
}

/// `iface = "interface" name "{" { signal } "}"`.
#[tactic(auto, unfolding(crate::specs::InterfaceReading::iface, grammar_laws::specs::Readers::and_then))]
pub fn iface(alloc: Global, tokens: &mut Cursor<'_>, depth: usize) -> Result<Interface, Fault>
    ensures { Reads (reading.iface (range (expr depth)) tokens.old.rest.now) result tokens.new.rest.now }
{
    let line = tokens.word(INTERFACE)?;
    let name = title(alloc, tokens)?;
    let (name, _) = with(name, tokens.word(LEFT_BRACE))?;
    let (name, signals) = with(name, signals(alloc, tokens, depth))?;
    let interface = Interface {
        line,
        name,
        signals,
    };
    let (interface, _) = with(interface, tokens.word(RIGHT_BRACE))?;
    Ok(interface)
}
