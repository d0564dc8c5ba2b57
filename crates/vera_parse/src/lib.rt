//! The parser: the syntax tree of a testbench's tokens, or the place at which they are no testbench.
#![tactic(auto)]

mod coverage;
mod file;
mod interfaces;
mod items;
mod laws;

pub use file::parse;
pub use laws::{least_depth, nothing_is_a_file, one_answer, one_tree};
