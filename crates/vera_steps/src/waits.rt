//! Edges and expects.

ghost use Rattle.std.specs.Prelude.{◌≡◌, ◌&&◌, ◌∷◌, [], not, option_map};
ghost use Rattle.typing_rules.specs.Answers.{Answers};
ghost use Rattle.typing_rules.specs.Checked as checked;
ghost use Rattle.typing_rules.specs.Heads as heads;
ghost use Rattle.typing_rules.specs.Interfaces as interfaces;
ghost use Rattle.typing_rules.specs.Scopes as scopes;
ghost use Rattle.vera_steps.specs.SimpleForms as lists;
ghost use Rattle.typing_rules.specs.Types as types;
ghost use Rattle.typing_rules.specs.Waits as spec;
ghost use Rattle.vera_steps.specs.TargetLists as targets;

use crate::drives::{delay, delay_or_missing};
use crate::targets::{Target, walk_target};
use four_state::List;
use std::alloc::Global;
use typing_rules::head::Typed;
use typing_rules::names::Meaning;
use vera_ast::{
    Direction, Edge, EdgeClock, Expect, FrontError, Refusal, Term, TypedEdge, TypedExpect,
    TypedSignalKind, TypedStmt, TypedTerm, TypedWindow, Window, with,
};
use vera_calls::calls::is_function;
use vera_exprs::expressions::expr;
use vera_names::codes::{NOT_HERE, UNKNOWN_NAME, WRONG_SIGNAL, WRONG_TYPE};
use vera_names::fitting::is_vector;
use vera_names::rules::{answered, keeps};
use vera_values::heads::{expr_or_missing, is_output};
use vera_values::lists::list_with;
use vera_values::sight::Sight;

fn is_clock(kind: TypedSignalKind) -> bool
    ensures { result ≡ interfaces.is_clock_kind kind }
{
    matches!(kind, TypedSignalKind::Clock)
}

/// The kind of a signal behind what a name stands for.
#[tactic(auto, unfolding(vera_names::proofs::StepsOpened::rules))]
fn kind_in(
    sight: &Sight<'_>,
    line: u32,
    means: Meaning,
    word: &[u8],
) -> Result<TypedSignalKind, Refusal>
    ensures { result ≡ lists.kind_in sight.now line means word.now }
{
    match means {
        Meaning::Interface(number) => match sight.outline().signal_named(number, word) {
            Some(signal) => Ok(signal.kind),
            None => Err(Refusal {
                code: UNKNOWN_NAME,
                line,
            }),
        },
        _ => Err(Refusal {
            code: WRONG_TYPE,
            line,
        }),
    }
}

/// What a name stands for.
#[tactic(auto, unfolding(vera_names::proofs::StepsOpened::rules))]
fn meaning(sight: &Sight<'_>, line: u32, name: &[u8]) -> Result<Meaning, Refusal>
    ensures { result ≡ checked.known checked.unknown_name line (scopes.meaning_of sight.now.scopes name.now) }
{
    match sight.scopes().meaning(name) {
        Some(means) => Ok(means),
        None => Err(Refusal {
            code: UNKNOWN_NAME,
            line,
        }),
    }
}

/// Whether an edge is that of a signal which is no clock.
#[tactic(auto, unfolding(vera_names::proofs::StepsOpened::rules))]
fn is_wrong_edge(sight: &Sight<'_>, line: u32, clock: &EdgeClock) -> Result<bool, Refusal>
    ensures { result ≡ spec.is_wrong_edge sight.now line clock.now }
{
    match clock {
        EdgeClock::Clock => Ok(false),
        EdgeClock::Signal(of, word) => {
            let means = meaning(sight, line, of.as_slice())?;
            let kind = kind_in(sight, line, means, word.as_slice())?;
            Ok(!is_clock(kind))
        }
    }
}

/// `edge = "@" "(" "posedge" ( "CLOCK" | name "." name ) ")"`.
#[tactic(auto, unfolding(vera_names::proofs::StepsOpened::rules, typing_rules::specs::Waits::edge_stmt))]
pub fn edge_stmt(sight: &Sight<'_>, edge: &Edge) -> Result<TypedStmt, Refusal>
    ensures { result ≡ spec.edge_stmt sight.now edge.now }
{
    let is_wrong = is_wrong_edge(sight, edge.line, &edge.clock)?;
    keeps(
        edge.line,
        &[
            (NOT_HERE, is_function(sight.body())),
            (WRONG_SIGNAL, is_wrong),
        ],
    )?;
    Ok(TypedStmt::Edge(TypedEdge {
        line: edge.line,
        negative: edge.negative,
    }))
}

fn is_vector_or_missing(value: &Option<Typed>) -> bool
    ensures { result ≡ spec.is_vector_or_missing value.now }
{
    match value {
        Some(value) => is_vector(value.of),
        None => true,
    }
}

/// Whether both delays of a window are vectors.
fn are_vectors(first: &Typed, second: &Option<Typed>) -> bool
    ensures { result ≡ (types.is_vector first.now.of && spec.is_vector_or_missing second.now) }
{
    is_vector(first.of) && is_vector_or_missing(second)
}

/// A window, and whether its delays are vectors, which is a rule of its statement.
#[tactic(auto, unfolding(vera_names::proofs::StepsOpened::rules, typing_rules::specs::Waits::window))]
fn window(
    alloc: Global,
    sight: &Sight<'_>,
    window: &Window,
) -> Result<(TypedWindow, bool), FrontError>
    ensures { Answers (spec.window sight.now window.now) result }
{
    let first = delay(alloc, sight, &window.first)?;
    let (first, second) = with(first, delay_or_missing(alloc, sight, &window.second))?;
    let is_right = are_vectors(&first, &second);
    let typed = TypedWindow {
        kind: window.kind,
        first: first.expr,
        second: expr_or_missing(second),
    };
    Ok((typed, is_right))
}

/// A window that may be missing.
#[tactic(auto, unfolding(vera_names::proofs::StepsOpened::rules))]
fn window_or_missing(
    alloc: Global,
    sight: &Sight<'_>,
    found: &Option<Window>,
) -> Result<Option<(TypedWindow, bool)>, FrontError>
    ensures { Answers (checked.perhaps (spec.window sight.now) found.now) result }
{
    match found {
        Some(found) => Ok(Some(window(alloc, sight, found)?)),
        None => Ok(None),
    }
}

fn is_wrong_window(window: &Option<(TypedWindow, bool)>) -> bool
    ensures { result ≡ spec.is_wrong_window window.now }
{
    match window {
        Some((_, is_right)) => !*is_right,
        None => false,
    }
}

fn window_alone(window: Option<(TypedWindow, bool)>) -> Option<TypedWindow>
    ensures { result ≡ option_map (λ timed. timed.0) window }
{
    match window {
        Some((window, _)) => Some(window),
        None => None,
    }
}

/// The rules of a term of a signal of this direction.
fn keeps_term(line: u32, value: &Typed, direction: Direction) -> Result<(), Refusal>
    ensures { result ≡ checked.keeps line ((checked.wrong_type, not (types.is_vector value.now.of)) ∷ (checked.wrong_signal, heads.is_output direction) ∷ []) }
{
    keeps(
        line,
        &[
            (WRONG_TYPE, !is_vector(value.of)),
            (WRONG_SIGNAL, is_output(direction)),
        ],
    )
}

/// A term, once its parts were walked: of a whole input signal, which isn't read here.
#[tactic(auto, unfolding(vera_names::proofs::StepsOpened::rules))]
fn expected(term: &Term, target: Option<Target>, value: Typed) -> Result<TypedTerm, Refusal>
    ensures { result ≡ targets.expected term.now target value }
{
    match target {
        Some(target) => {
            let kept = keeps_term(term.line, &value, target.direction);
            let (value, ()) = with(value, kept)?;
            Ok(TypedTerm {
                line: term.line,
                signal: target.signal,
                operator: term.operator,
                value: value.expr,
            })
        }
        None => {
            drop(value);
            Err(Refusal {
                code: WRONG_TYPE,
                line: term.line,
            })
        }
    }
}

/// `term = post ( "==" | "!=" ) expr`.
#[tactic(auto, using(crate::proofs::TargetSteps::term_target_stops, crate::proofs::TargetSteps::term_value_stops, crate::proofs::TargetSteps::term_goes))]
fn term(alloc: Global, sight: &Sight<'_>, term: &Term) -> Result<TypedTerm, FrontError>
    ensures { Answers (spec.term sight.now term.now) result }
{
    let target = walk_target(alloc, sight, &term.signal)?;
    let value = expr(alloc, sight, &term.value)?;
    answered(expected(term, target, value))
}

fn terms(alloc: Global, sight: &Sight<'_>, terms: &[Term]) -> Result<List<TypedTerm>, FrontError>
    ensures { Answers (checked.each (spec.term sight.now) terms.now) result }
{
    let mut typed = List::empty(alloc);
    for next in terms {
        let (before, next) = with(typed, term(alloc, sight, next))?;
        typed = list_with(before, next)?;
    }
    Ok(typed)
}

/// `[ ( "@" | "@@" | "@@@" ) delay [ "," delay ] ] [ "soft" ] term { "," term } [ "soft" ] ";"`.
#[tactic(auto, unfolding(vera_names::proofs::StepsOpened::rules, typing_rules::specs::Waits::expect_stmt))]
pub fn expect_stmt(
    alloc: Global,
    sight: &Sight<'_>,
    expect: &Expect,
) -> Result<TypedStmt, FrontError>
    ensures { Answers (spec.expect_stmt sight.now expect.now) result }
{
    let window = window_or_missing(alloc, sight, &expect.window)?;
    let (window, terms) = with(window, terms(alloc, sight, expect.terms.as_slice()))?;
    let kept = answered(keeps(
        expect.line,
        &[
            (WRONG_TYPE, is_wrong_window(&window)),
            (NOT_HERE, is_function(sight.body())),
        ],
    ));
    let ((window, terms), ()) = with((window, terms), kept)?;
    Ok(TypedStmt::Expect(TypedExpect {
        line: expect.line,
        window: window_alone(window),
        soft_before: expect.soft_before,
        terms,
        soft_after: expect.soft_after,
    }))
}
