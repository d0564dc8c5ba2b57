//! What a testbench has that isn't built yet. Between the parser and the checker such a tree is refused, with the line
//! of the first token of the first such construct.
#![tactic(auto)]

mod expressions;
mod interfaces;
mod items;
mod statements;
mod unchecked;

pub use items::not_built;
pub use unchecked::not_checked;
