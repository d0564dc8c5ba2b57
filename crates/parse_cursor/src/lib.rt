//! The tokens that are left, and what readers of any production do with them: quoted tokens, names, numbers, loops.
#![tactic(auto)]

pub mod cursor;
pub mod repeats;
pub mod trees;
pub mod turns;
