//! The reader of declarations and statements.
#![tactic(auto)]

pub mod decls;
pub mod kinds;
pub mod parts;
pub mod simple;
pub mod statement_sets;
pub mod stmts;
