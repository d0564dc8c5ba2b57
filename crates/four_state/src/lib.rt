//! Four-state vectors, and the small types of data that every crate shares: texts, lists, want of memory.
#![tactic(auto)]

mod bit;
pub mod laws;
mod list;
mod memory;
mod text;
mod vec4;

pub use bit::{Bit, Bit3};
pub use list::List;
pub use memory::NoMemory;
pub use text::Text;
pub use vec4::Vec4;
