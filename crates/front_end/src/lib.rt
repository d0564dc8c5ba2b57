//! From the bytes of a testbench to its typed tree: tokens, grammar, what is built, names and types, in this order.
#![tactic(auto)]

mod laws;
mod purpose;
mod reading;

pub use laws::{one_answer, signals_are_ready};
pub use purpose::Purpose;
pub use reading::read_source;
