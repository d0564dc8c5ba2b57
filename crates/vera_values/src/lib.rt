//! What the parts of an expression stand for: names and suffixes, operators, and the value of what stands there.
#![tactic(auto)]

pub mod arguments;
pub mod heads;
pub mod lists;
pub mod posts;
pub mod productions;
pub mod sight;
pub mod values;
