//! A slice's meaning: a tree of questions to the contents, with the values that it puts, its effects and its end;
//! and what such a slice does in given contents.
#![tactic(auto)]

mod laws;

pub use laws::{contents_after, each_place_once, frame, noted_are_asked, notes_hold};
