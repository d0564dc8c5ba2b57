//! A netlist as a device: inputs are driven, nets settle, and an edge moves the latches.
//!
//! A device is made once from a netlist (`sources` says where each net's value comes from, `walk` finds an order in
//! which each net comes behind what it reads, and `rings` finds the net to name where there is none), and then settles
//! by one pass in that order, without taking memory.
#![tactic(auto)]

mod covers;
mod device;
mod latches;
mod rings;
mod settling;
mod sources;
mod walk;

pub use device::{Device, DeviceError};
