//! The types of a testbench: what its names stand for, the type of each expression, and the first place that breaks a
//! rule.
#![tactic(auto)]

pub mod blocks;
pub mod bodies;
pub mod outlines;
pub mod statements;
pub mod typing;

pub use typing::check;
