use four_state::Vec4;

/// A drive of an output signal: the cycle in which it is applied, the signal's number, from 0 in text order, and its
/// value, which has the signal's width.
#[derive(Clone, Copy, Debug, PartialEq, Eq)]
pub struct Drive {
    pub cycle: u64,
    pub signal: u32,
    pub bits: Vec4,
}
