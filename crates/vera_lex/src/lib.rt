//! The lexer: the tokens of a testbench, its directives taken and its defined names replaced.
#![tactic(auto)]

mod bytes;
mod directives;
mod front;
mod laws;
mod lexer;
mod literals;
mod piece;
mod signs;
mod strings;

pub use laws::one_result;
pub use lexer::lex;
