//! Runs a testbench against a netlist by one thread, cycle by cycle.
//!
//! `evaluate` runs a slice of the thread on an explicit list of what is still to do; `outside` is the netlist as a
//! device, with what its signals were driven with; `cycles` joins them to a cycle, and `running` the cycles to a run.
#![tactic(auto)]

mod cycles;
mod evaluate;
mod outside;
mod running;
mod vectors;

pub use running::{Record, run};
