//! What the monitor reads and writes: files by name, an output, and a gate that a test may close.
#![tactic(auto)]

mod file_shelf;
mod gate;
mod law;
mod mem_sink;
mod memory;
mod out_sink;
mod shelf;
mod sink;

pub use file_shelf::FileShelf;
pub use gate::{FreeGate, Gate, GatePoint};
pub use law::{nothing_put_is_starved, pieces_join};
pub use mem_sink::MemSink;
pub use memory::{CallList, FileList, HeldFile, MemShelf};
pub use out_sink::OutSink;
pub use shelf::{Shelf, ShelfFault};
pub use sink::{Sink, SinkFault};
