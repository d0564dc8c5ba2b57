//! Ties the signals of a testbench to the nets of a netlist.
//!
//! A signal of width 1 is the net of its name, and bit i of a wider signal `s` is the net `s[i]`. `numbers` finds nets
//! by name, `roles` says what a net may be used for, `linking` goes over the signals in text order, and `labels` gives
//! the signals' names as reports write them. Linking takes time in the order of the netlist's nets and the signals'
//! bits.
#![tactic(auto)]

mod labels;
mod laws;
mod linking;
mod numbers;
mod roles;

pub use labels::signal_names;
pub use laws::only_clocks_link_without_a_netlist;
pub use linking::{LinkError, SignalNets, link};
