//! The walk through an expression: what each part stands for, and the first part that breaks a rule.
#![tactic(auto)]

pub mod expressions;
