//! Statements that hold no statements: assignments, drives, waits.
#![tactic(auto)]

pub mod assignments;
pub mod drives;
pub mod labels;
pub mod sides;
pub mod targets;
pub mod waits;
