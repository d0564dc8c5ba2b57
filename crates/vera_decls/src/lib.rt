//! What a testbench declares: types of variables, interfaces, names of the file, and the walk through all declarations.
#![tactic(auto)]

pub mod declarations;
pub mod file_names;
pub mod interfaces;
pub mod variables;
