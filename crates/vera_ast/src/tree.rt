//! Syntax trees: one type for each production of the grammar, with its parts in the production's order and the
//! line of its first token. Names stand as they are written, and nothing is looked up.
//!
//! `[ x ]` is an `Option`, or a list without items where `x` is a list. `{ x }` is a list.

pub mod classes;
pub mod coverage;
pub mod declarations;
pub mod expressions;
pub mod interfaces;
pub mod items;
pub mod statements;
