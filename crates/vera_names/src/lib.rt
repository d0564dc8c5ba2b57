//! The names of a testbench: scopes and what names mean in them, constants, declared types.
#![tactic(auto)]

pub mod codes;
pub mod constant_numbers;
pub mod constants;
pub mod data_types;
pub mod fitting;
pub mod name_sets;
pub mod numbers;
pub mod outline;
pub mod reserved;
pub mod rules;
pub mod scope;
