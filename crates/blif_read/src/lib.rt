//! The reader of netlists in BLIF, the Berkeley Logic Interchange Format.
//!
//! A netlist goes through lists, one pass after the other, each in time linear in the text: joined lines of words
//! (`lines`), directives with the rows behind them (`words`, `blocks`), the same over numbers in place of names
//! (`nets`), the first refusal (`refusals`, `rows`), and the netlist's parts (`parts`). `reading` joins the passes.
#![tactic(auto)]

mod blocks;
mod copies;
mod directives;
mod lines;
mod netlist;
mod nets;
mod parts;
mod reading;
mod refusals;
mod roles;
mod rows;
mod sets;
mod undriven;
mod words;

pub use netlist::{Latch, NetCover, Netlist};
pub use reading::{NetError, read};
