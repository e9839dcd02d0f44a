//! The edges of the program: a source of bytes, a sink for bytes, in memory and as standard input and output.
//! Each counts its own faults, so that a caller can tell a fault of the outside from one of its own.
#![tactic(auto)]

mod edges;
mod memory_sink;
mod memory_source;
mod standard;
#[cfg(test)]
mod tests;
mod whole;

pub use edges::{Failed, MOST_AT_ONCE, Sink, Source};
pub use memory_sink::MemorySink;
pub use memory_source::MemorySource;
pub use standard::{StdSink, StdSource};
pub use whole::{ReadFault, give_all, read_to_end};
