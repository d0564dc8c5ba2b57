use super::declarations::Range;
use super::expressions::Number;
use four_state::{List, Text};

/// `iface = "interface" name "{" { signal } "}"`.
#[derive(Drop)]
pub struct Interface {
    pub line: u32,
    pub name: Text,
    pub signals: List<Signal>,
}

/// `signal = ( "input" | "output" ) [ range ] name kind ";"`.
#[derive(Drop)]
pub struct Signal {
    pub line: u32,
    pub direction: Direction,
    pub range: Option<Range>,
    pub name: Text,
    pub kind: SignalKind,
}

/// Which side gives a signal its value.
#[derive(Clone, Copy, PartialEq, Eq)]
pub enum Direction {
    /// The netlist: the testbench samples it.
    Input,
    /// The testbench: it drives it.
    Output,
}

/// `kind = "CLOCK" | ( "PHOLD" | "PSAMPLE" | "NHOLD" | "NSAMPLE" ) [ "#" [ "-" ] number ]`.
#[derive(Drop)]
pub struct SignalKind {
    pub line: u32,
    pub form: SignalForm,
}

/// The alternatives of a signal's kind.
#[derive(Drop)]
pub enum SignalForm {
    Clock,
    Timed(SignalTime, Option<Skew>),
}

/// At which edge of the clock a signal is driven (`HOLD`) or sampled (`SAMPLE`): the positive one (`P`) or the
/// negative one (`N`).
#[derive(Clone, Copy, PartialEq, Eq)]
pub enum SignalTime {
    PositiveHold,
    PositiveSample,
    NegativeHold,
    NegativeSample,
}

/// `"#" [ "-" ] number`.
#[derive(Drop)]
pub struct Skew {
    pub is_negative: bool,
    pub amount: Number,
}
