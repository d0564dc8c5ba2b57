//! The rules of types: what names stand for, the type of each expression, and the first place that breaks a rule.
//! Definitions, the plain types that they speak of, and laws.
#![tactic(auto)]

pub mod begun;
pub mod context;
pub mod head;
mod laws;
pub mod names;
pub mod words;

pub use laws::{
    expressions_have_their_types, files_without_one_program_are_told, first_refusals_are_told,
    more_sources_of_runs_are_told, names_declared_twice_are_told, passed_limits_are_told,
    sources_of_runs_are_told, typed_trees_are_those, unknown_names_are_told,
    worked_sources_are_told, wrong_counts_are_told, wrong_signals_are_told, wrong_stands_are_told,
    wrong_targets_are_told, wrong_types_are_told_1, wrong_types_are_told_2, wrong_types_are_told_3,
    wrong_types_are_told_4,
};
