//! The words from the first to the last.
ghost use Rattle.std.specs.Prelude.{◌≡◌, map, IfSome};
ghost use Rattle.std.specs.Option.{option_map, option_and_then};
ghost use Rattle.run_words.specs.Progress.{add_all};
ghost use Rattle.run_words.specs.Ranges.{AreTaken};
ghost use Rattle.run_words.specs.Views.{seen_found, seen_request};
ghost use Rattle.run_words.specs.Words as spec;

use crate::found::{Found, nothing_found, request, with_name, with_option};
use crate::modes::Mode;
use crate::words::{Word, is_file_name, word_of};
use run_rules::Limits;

/// What the words of the command ask for.
#[derive(Clone, Copy, Debug)]
pub struct Request<'a> {
    /// What is to be done.
    pub mode: Mode,
    /// The testbench's file name.
    pub testbench: &'a str,
    /// The netlist's file name, where there is one.
    pub netlist: Option<&'a str>,
    /// How far a run may go.
    pub limits: Limits,
}

/// What the words behind the program's name ask for: a mode, then a testbench and a netlist where there is one, with
/// options anywhere. `None` where they ask for nothing that there is.
#[tactic(auto, using(crate::proofs::Whole::asks_nothing))]
pub fn read_words<'a>(words: &[&'a str]) -> Option<Request<'a>>
    ensures request { option_map seen_request result ≡ spec.request_of (map (λ word. word.now) words.now) }
    ensures taken { IfSome result (λ request. AreTaken request.limits) }
{
    match found_in(words, nothing_found()) {
        Some(found) => request(found),
        None => None,
    }
}

/// What stands in these words, beside what was found before them. Each word but `--` adds to what is found, which has
/// at most three names and three options, so the calls are few.
fn found_in<'a>(words: &[&'a str], found: Found<'a>) -> Option<Found<'a>>
    ensures { option_map seen_found result
        ≡ option_and_then (add_all (seen_found found.entry)) (spec.items_of (map (λ word. word.now) words.now)) }
{
    match words {
        [] => Some(found),
        [word, rest @ ..] => match word_of(word) {
            Word::End => names_in(rest, found),
            Word::Operand(name) => found_in(rest, with_name(found, name)?),
            Word::Set(option, value) => found_in(rest, with_option(found, option, value)?),
            Word::Named(option) => match rest {
                [value, more @ ..] => found_in(more, with_option(found, option, value)?),
                [] => None,
            },
            Word::Other => None,
        },
    }
}

/// The words behind `--`: each is a name.
fn names_in<'a>(words: &[&'a str], found: Found<'a>) -> Option<Found<'a>>
    ensures { option_map seen_found result
        ≡ option_and_then (add_all (seen_found found.entry)) (spec.names_alone (map (λ word. word.now) words.now)) }
{
    match words {
        [] => Some(found),
        [word, rest @ ..] if is_file_name(word) => names_in(rest, with_name(found, word)?),
        _ => None,
    }
}
