/// How a run ends.
#[derive(Clone, Copy, Debug, PartialEq, Eq)]
pub enum End {
    /// No thread lives.
    Finished,
    /// The last cycle was done.
    Limit,
    /// A fault of this number, in this line, or in line 0 where it is no statement's.
    Fault(u8, u32),
    /// A slice would have taken a tick above its budget.
    SpentSlice,
    /// A thread was still ready after as many slices as a cycle may have.
    SpentTurns,
}
