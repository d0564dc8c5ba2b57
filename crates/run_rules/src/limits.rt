/// How far a run may go.
#[derive(Clone, Copy, Debug, PartialEq, Eq)]
pub struct Limits {
    /// The run's last cycle.
    pub cycles: u64,
    /// The ticks that a slice may take.
    pub budget: u64,
    /// The slices that a cycle may have.
    pub turns: u64,
}
