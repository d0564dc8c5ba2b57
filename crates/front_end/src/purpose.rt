/// What a testbench is read for. It decides which constructs count as not built yet (E90).
#[derive(Clone, Copy, Debug, PartialEq, Eq)]
pub enum Purpose {
    /// To be checked alone: classes and coverage groups can't be checked yet.
    Check,
    /// To be run: all that programs can't be run with yet.
    Run,
}
