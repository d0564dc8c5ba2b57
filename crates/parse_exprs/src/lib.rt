//! The reader of expressions.
#![tactic(auto)]

pub mod exprs;
pub mod grammar;
pub mod operators;
pub mod postfix;
pub mod primary;
pub mod sets;
