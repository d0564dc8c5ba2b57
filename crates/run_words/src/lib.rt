//! What the words of the command ask for: a mode, its files and its limits.
#![tactic(auto)]

mod found;
mod modes;
mod numbers;
mod reading;
mod words;

pub use modes::{Mode, OptionName};
pub use reading::{Request, read_words};
