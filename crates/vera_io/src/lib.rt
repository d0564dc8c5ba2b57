//! The outside of a program: shelves that files are read from, and sinks that text is written to.
#![tactic(auto)]

mod dir_shelf;
mod faults;
mod memory_shelf;
mod memory_sink;
mod piece;
mod reading;
mod shelf;
mod sink;
mod stream_sink;
mod writing;

pub use dir_shelf::DirShelf;
pub use faults::rise_of_a_count;
pub use memory_shelf::MemoryShelf;
pub use memory_sink::MemorySink;
pub use reading::{ReadAll, read_all};
pub use shelf::{Shelf, ShelfFailed};
pub use sink::{Sink, SinkFailed};
pub use stream_sink::StreamSink;
pub use writing::write_all;
