//! Calls: what is wanted of their arguments, and the rules of each, once its arguments were walked.
#![tactic(auto)]

pub mod calls;
pub mod formats;
pub mod given;
pub mod operands;
pub mod outcomes;
pub mod signatures;
pub mod split;
pub mod wanted;
