//! Laws of the names in a text: that its words, and so the names of its signals, hold no bracket.
#![tactic(auto)]

mod laws;

pub use laws::{signal_names_are_plain, words_are_plain};
