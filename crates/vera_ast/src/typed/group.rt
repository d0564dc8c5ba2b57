use super::names::{TypedSignalName, TypedVariable};
use super::stmt::TypedEdge;
use crate::tree::coverage::BinKind;
use four_state::{List, Text};

/// `coverage_group name { sample_event = event; samples }`.
#[derive(Drop)]
pub struct TypedGroup {
    pub line: u32,
    pub name: Text,
    pub event: TypedGroupEvent,
    /// At least one.
    pub samples: List<TypedSample>,
}

/// When the instances of a group are sampled.
#[derive(Clone, Copy)]
pub enum TypedGroupEvent {
    Edge(TypedEdge),
    /// `sync(ANY, event)`: the number of the program's event among the program's variables.
    Sync(u32),
}

/// `sample name { bins }`.
#[derive(Drop)]
pub struct TypedSample {
    pub line: u32,
    /// The name as it is written, and behind a `.` the signal's name where the first one is an interface's.
    pub name: Text,
    pub signal: Option<Text>,
    pub source: SampleSource,
    /// At least one.
    pub bins: List<TypedBin>,
}

/// What is sampled.
#[derive(Clone, Copy, PartialEq, Eq)]
pub enum SampleSource {
    /// A vector or an enumeration of the program.
    Variable(TypedVariable),
    /// An input signal.
    Signal(TypedSignalName),
}

/// A bin of a sample.
#[derive(Drop)]
pub struct TypedBin {
    pub line: u32,
    pub kind: BinKind,
    pub name: Text,
    /// The values of a state bin, at least one; the steps of a transition bin, at least two.
    pub values: List<TypedBinValue>,
}

/// `first:last`: a range of constants, with both ends. One value is a range of itself.
#[derive(Clone, Copy, PartialEq, Eq)]
pub struct TypedBinValue {
    pub first: u32,
    pub last: u32,
}
