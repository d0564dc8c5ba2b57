use four_state::{List, Text};

/// A directive over the names of nets (`Text`) or over their numbers (`usize`).
#[derive(Debug, Drop)]
pub enum Directive<N> {
    /// `.model` with this many words behind it.
    Model(usize),
    /// `.inputs` with its nets.
    Inputs(List<N>),
    /// `.outputs` with its nets.
    Outputs(List<N>),
    /// `.clock` with its nets.
    Clock(List<N>),
    /// `.names` with its inputs and its output.
    Names(List<N>, N),
    /// `.latch` with its input, its output, its control where that is a net, and its first value.
    Latch(N, N, Option<N>, u8),
    /// A `.latch` of another form.
    BadLatch,
    /// `.end`.
    End,
    /// Another directive, or a `.names` without a net.
    Unknown,
}

/// A line that is no directive. It has parts where it is a row of a cover: a character for each input, and the
/// output's bit.
#[derive(Debug, Drop)]
pub struct Row {
    pub line: u32,
    pub parts: Option<(Text, bool)>,
}

/// A directive and the rows that stand right behind it.
#[derive(Debug, Drop)]
pub struct Block<N> {
    pub line: u32,
    pub directive: Directive<N>,
    pub rows: List<Row>,
}
