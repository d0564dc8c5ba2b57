use super::types::Width;
use crate::tree::interfaces::Direction;
use four_state::{List, Text};

/// `interface name { signals }`.
#[derive(Drop)]
pub struct TypedInterface {
    pub line: u32,
    pub name: Text,
    pub signals: List<TypedSignal>,
}

/// A signal of an interface: `direction range name kind`. Its skew has no effect, and leaves no trace.
#[derive(Drop)]
pub struct TypedSignal {
    pub line: u32,
    pub direction: Direction,
    pub width: Width,
    pub name: Text,
    pub kind: TypedSignalKind,
}

/// When a signal is sampled or driven.
#[derive(Clone, Copy, PartialEq, Eq)]
pub enum TypedSignalKind {
    /// The clock itself.
    Clock,
    /// `PHOLD`: driven at the rising edge.
    PositiveHold,
    /// `PSAMPLE`: sampled at the rising edge.
    PositiveSample,
    /// `NHOLD`: driven at the falling edge. No source gives it yet.
    NegativeHold,
    /// `NSAMPLE`: sampled at the falling edge. No source gives it yet.
    NegativeSample,
}
