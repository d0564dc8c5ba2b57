//! What has been found among the words so far.
ghost use Rattle.std.specs.Prelude.{◌≡◌};
ghost use Rattle.std.specs.Option.{option_map};
ghost use Rattle.run_words.specs.Progress as spec;
ghost use Rattle.run_words.specs.Views.{seen_found, seen_request};
ghost use Rattle.run_words.specs.Words.{takes};

use crate::modes::{Mode, OptionName};
use crate::numbers::{number_for, usual};
use crate::reading::Request;
use crate::words::mode_named;
use run_rules::Limits;

/// The names so far: the mode, and then the files.
#[derive(Clone, Copy)]
pub enum Names<'a> {
    Nothing,
    Mode(Mode),
    Testbench(Mode, &'a str),
    WithNetlist(Mode, &'a str, &'a str),
}

/// The names and the numbers that options have been given so far.
#[derive(Clone, Copy)]
pub struct Found<'a> {
    pub names: Names<'a>,
    pub cycles: Option<u64>,
    pub budget: Option<u64>,
    pub turns: Option<u64>,
}

/// What has been found before the first word.
pub fn nothing_found<'a>() -> Found<'a>
    ensures { seen_found result ≡ spec.nothing_found }
{
    Found {
        names: Names::Nothing,
        cycles: None,
        budget: None,
        turns: None,
    }
}

/// One name more: the first is the mode, and there are at most two files.
pub fn with_name<'a>(found: Found<'a>, name: &'a str) -> Option<Found<'a>>
    ensures { option_map seen_found result ≡ spec.with_name (seen_found found.entry) name.now }
{
    match found.names {
        Names::Nothing => Some(Found {
            names: Names::Mode(mode_named(name)?),
            ..found
        }),
        Names::Mode(mode) => Some(Found {
            names: Names::Testbench(mode, name),
            ..found
        }),
        Names::Testbench(mode, testbench) => Some(Found {
            names: Names::WithNetlist(mode, testbench, name),
            ..found
        }),
        Names::WithNetlist(_, _, _) => None,
    }
}

/// An option with its value: each stands at most once. Whether the mode takes it is looked at when all words are read,
/// since it may stand before the mode.
pub fn with_option<'a>(found: Found<'a>, option: OptionName, value: &str) -> Option<Found<'a>>
    ensures { option_map seen_found result ≡ spec.with_option (seen_found found.entry) option value.now }
{
    match option {
        OptionName::Cycles => Some(Found {
            cycles: Some(first_number(option, found.cycles, value)?),
            ..found
        }),
        OptionName::Budget => Some(Found {
            budget: Some(first_number(option, found.budget, value)?),
            ..found
        }),
        OptionName::Turns => Some(Found {
            turns: Some(first_number(option, found.turns, value)?),
            ..found
        }),
    }
}

/// The number of an option that has none yet.
fn first_number(option: OptionName, before: Option<u64>, value: &str) -> Option<u64>
    ensures { result ≡ spec.first_number option before value.now }
{
    match before {
        None => number_for(option, value),
        Some(_) => None,
    }
}

/// What the words ask for, where these are all that they name.
pub fn request<'a>(found: Found<'a>) -> Option<Request<'a>>
    ensures { option_map seen_request result ≡ spec.request (seen_found found.entry) }
{
    match found.names {
        Names::Nothing | Names::Mode(_) => None,
        Names::Testbench(mode, testbench) => Some(Request {
            mode,
            testbench,
            netlist: None,
            limits: limits(mode, found)?,
        }),
        Names::WithNetlist(mode, testbench, netlist) => Some(Request {
            mode,
            testbench,
            netlist: Some(netlist),
            limits: limits(mode, found)?,
        }),
    }
}

/// The limits in a mode.
fn limits(mode: Mode, found: Found<'_>) -> Option<Limits>
    ensures { result ≡ spec.limits mode (seen_found found.entry) }
{
    Some(Limits {
        cycles: limit(mode, OptionName::Cycles, found.cycles)?,
        budget: limit(mode, OptionName::Budget, found.budget)?,
        turns: limit(mode, OptionName::Turns, found.turns)?,
    })
}

/// The number of an option in a mode, which has to take it where it was given. Where it wasn't, the usual one counts.
fn limit(mode: Mode, option: OptionName, number: Option<u64>) -> Option<u64>
    ensures { result ≡ spec.limit mode option number }
{
    match number {
        None => Some(usual(option)),
        Some(number) if takes(mode, option) => Some(number),
        _ => None,
    }
}

/// Whether a mode takes an option.
fn takes(mode: Mode, option: OptionName) -> bool
    ensures { result ≡ takes mode option }
{
    match mode {
        Mode::Check => false,
        Mode::Plain => matches!(
            option,
            OptionName::Cycles | OptionName::Budget | OptionName::Turns
        ),
    }
}
