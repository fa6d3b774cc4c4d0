//! SCSI disks of 512-byte blocks, and what they answer to a command.
//!
//! A disk knows TEST UNIT READY, INQUIRY, READ CAPACITY(10), READ(10), READ(16), WRITE(10) and
//! WRITE(16), and has one logical unit, number 0. `perform` carries out one command, and takes no
//! memory: its result fills the buffers of a `Room`.
#![tactic(auto)]

mod buffers;
mod bytes;
mod cdb;
mod command;
mod device_server;
mod disk;
mod inquiry;
mod laws;
mod operation;
mod out_of_memory;
mod room;
mod scsi_result;
mod sense;
#[cfg(test)]
mod tests;

pub use bytes::Bytes;
pub use cdb::Cdb;
pub use command::{Command, Direction, command_fits, length_of, moved};
pub use device_server::perform;
pub use disk::Disk;
pub use laws::{other_blocks_stay, read_after_write};
pub use mpi_names::Address;
pub use out_of_memory::OutOfMemory;
pub use room::Room;
pub use scsi_result::ScsiResult;
