use super::expressions::Expr;
use super::statements::Edge;
use four_state::{List, Text};

/// `group = "coverage_group" name "{" "sample_event" "=" event ";" samp { samp } "}"`.
#[derive(Drop)]
pub struct CoverageGroup {
    pub line: u32,
    pub name: Text,
    pub event: GroupEvent,
    /// At least one.
    pub samples: List<Sample>,
}

/// `event = edge | "sync" "(" "ANY" "," name ")"`.
#[derive(Drop)]
pub enum GroupEvent {
    Edge(Edge),
    Sync(SyncEvent),
}

/// `"sync" "(" "ANY" "," name ")"`.
#[derive(Drop)]
pub struct SyncEvent {
    pub line: u32,
    pub name: Text,
}

/// `samp = "sample" name [ "." name ] "{" bin { bin } "}"`.
#[derive(Drop)]
pub struct Sample {
    pub line: u32,
    pub name: Text,
    /// The signal's name, where the first name is an interface's.
    pub signal: Option<Text>,
    /// At least one.
    pub bins: List<Bin>,
}

/// `bin = ( "state" | "bad_state" ) name "(" val { "," val } ")" ";"
///      | ( "trans" | "bad_trans" ) name "(" val "->" val { "->" val } ")" ";"`.
#[derive(Drop)]
pub struct Bin {
    pub line: u32,
    pub kind: BinKind,
    pub name: Text,
    /// The values of a state bin, at least one; the steps of a transition bin, at least two.
    pub values: List<BinValue>,
}

/// The word that a bin begins with.
#[derive(Clone, Copy, PartialEq, Eq)]
pub enum BinKind {
    State,
    BadState,
    Transition,
    BadTransition,
}

/// `val = expr [ ":" expr ]`: one value, or a range from the first to the last.
#[derive(Drop)]
pub struct BinValue {
    pub line: u32,
    pub first: Expr,
    pub last: Option<Expr>,
}
