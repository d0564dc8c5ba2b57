//! Laws of the rules of types: what is known of every tree that they accept.
#![tactic(auto)]

mod laws;

pub use laws::{drives_name_outputs, output_names_differ, signals_are_apart, there_is_one_program};
