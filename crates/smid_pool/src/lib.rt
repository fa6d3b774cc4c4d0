//! The 280 identifiers of system message requests (SMIDs), and the record of each open one.
//!
//! SMIDs 1 to 256 are for SCSI IO requests, 257 to 264 for high priority requests, and 265 to 280
//! for the host's other requests. Each is free, open with a record, or parked. A `Pool` reserves
//! all its room when it is made: no later call takes memory.
#![tactic(auto)]

mod class;
mod out_of_memory;
mod place;
mod pool;
#[cfg(test)]
mod tests;
mod vacant_set;

pub use class::Class;
pub use mpi_names::Smid;
pub use out_of_memory::OutOfMemory;
pub use pool::{NoIdentifier, Pool};
