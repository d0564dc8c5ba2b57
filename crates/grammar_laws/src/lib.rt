//! The theory of grammars that are read from left to right: languages and parsers by combinators, and one law for each
//! combinator, for any grammar and any type of tokens. What a crate above writes is said at the head of the
//! definitions in `specs/`. The contracts here are those of a small grammar that uses each combinator.
#![tactic(auto)]

mod example;
mod fault;

pub use example::{
    example_at_the_end_of_depth, example_depth_is_the_least, example_has_one_tree,
    example_is_read_exactly, example_lines, example_loop_goes_on,
    example_refusals_exclude_each_other, example_refuses_exactly, example_shares_beginnings,
};
pub use fault::{Fault, Why};
