//! Where bytes come from and where they go: the only doors to the outside.
#![tactic(auto)]

mod counts;
mod errors;
mod memory;
mod never;
mod pieces;
mod reading;
mod sink;
mod source;
mod standard;
mod writing;

pub use errors::{Failed, OutOfMemory};
pub use memory::{MemorySink, MemorySource};
pub use never::{NeverSink, NeverSource};
pub use reading::{ReadFault, read_all};
pub use sink::Sink;
pub use source::Source;
pub use standard::{StdSink, StdSource};
pub use writing::write_all;

#[cfg(test)]
mod tests;
