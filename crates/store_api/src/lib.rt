//! What a run keeps its values by: places, and the values that stand at them.
#![tactic(auto)]

mod loc;
mod val;

pub use loc::Loc;
pub use val::Val;
