//! Shelves of named files, sinks of bytes and the gate of the units.
//! `specs/Fault.antt`, `specs/Sink.antt` and `specs/Shelf.antt` say what their clauses see of them,
//! `specs/MemoryShelf.antt` and `specs/MemorySink.antt` what those in memory do besides. Of the system's files and
//! streams nothing is told.
#![tactic(auto)]

mod count;
mod ends;
mod files;
mod gate;
mod memory_shelf;
mod memory_sink;
mod shelf;
mod sink;
mod streams;
mod transfer;

pub use ends::{ReadEnd, ShelfFault, SinkFault};
pub use files::FileShelf;
pub use gate::{FreeGate, Gate};
pub use memory_shelf::MemShelf;
pub use memory_sink::MemSink;
pub use shelf::Shelf;
pub use sink::Sink;
pub use streams::{Std, StdSink};
pub use transfer::send;
