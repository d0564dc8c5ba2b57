/// What the command does with its files.
#[derive(Clone, Copy, Debug, PartialEq, Eq)]
pub enum Mode {
    /// Tells whether the files are accepted.
    Check,
    /// Runs the testbench as it stands.
    Plain,
}

/// An option with a number.
#[derive(Clone, Copy, Debug, PartialEq, Eq)]
pub enum OptionName {
    /// The last cycle of the run.
    Cycles,
    /// The ticks that a slice may take.
    Budget,
    /// The slices that a cycle may take.
    Turns,
}
