//! Commands.
ghost use Rattle.std.specs.Prelude.{◌≡◌, IfOk};
ghost use Rattle.scsi_disk.specs.Command.{direction_of, fits, is_write as is_write_of, length_named, moved as moved_by};

use crate::bytes::Bytes;
use crate::cdb::Cdb;
use crate::operation::Operation;
use crate::out_of_memory::OutOfMemory;
use crate::scsi_result::{GOOD, ScsiResult};
use mpi_names::{MAX_TRANSFER, WRITE_10, WRITE_16};
use std::alloc::Global;

/// A command for a disk.
#[derive(Debug, Drop)]
pub struct Command {
    /// The logical unit number, in the eight bytes of a SCSI IO request. The disks have 0 alone.
    pub lun: u64,
    /// The command descriptor block.
    pub cdb: Cdb,
    /// The number of bytes that are moved at most.
    pub len: u32,
    /// The data for the disk.
    pub payload: Bytes,
}

/// Which way a command's data goes.
#[derive(Clone, Copy, Debug, PartialEq, Eq)]
pub enum Direction {
    /// No data is moved.
    None,
    /// From the disk to the host.
    Read,
    /// From the host to the disk.
    Write,
}

impl Command {
    /// An equal value, or OutOfMemory.
    pub fn copy(&self, alloc: Global) -> Result<Command, OutOfMemory>
        ensures { IfOk result (λ command. command ≡ self.now) }
    {
        let payload = self.payload.copy(alloc)?;
        Ok(Command {
            lun: self.lun,
            cdb: self.cdb.copy(),
            len: self.len,
            payload,
        })
    }

    /// Which way the data goes: none where `len` is 0, else to the disk for WRITE(10) and WRITE(16),
    /// else from it.
    pub fn direction(&self) -> Direction
        ensures { result ≡ direction_of self.now }
    {
        if self.len == 0 {
            Direction::None
        } else if is_write(&self.cdb) {
            Direction::Write
        } else {
            Direction::Read
        }
    }
}

/// The number of bytes that the CDB names: 0 for TEST UNIT READY, the ALLOCATION LENGTH for INQUIRY,
/// 8 for READ CAPACITY(10), 512 times the TRANSFER LENGTH for a READ or a WRITE. None for another
/// OPERATION CODE.
pub fn length_of(cdb: &Cdb) -> Option<u64>
    ensures { result ≡ length_named cdb.now }
{
    match Operation::decode(cdb)? {
        Operation::TestUnitReady => Some(0),
        Operation::Inquiry {
            allocation_length,
            ..
        } => Some(u64::from(allocation_length)),
        Operation::ReadCapacity => Some(8),
        Operation::Read(transfer) | Operation::Write(transfer) => {
            Some(512 * u64::from(transfer.blocks))
        }
    }
}

/// Whether a host may send the command: its CDB has from 1 to 16 bytes, its `len` is at most 4,096
/// and is what the CDB names (`length_of`) where it names a length, and `payload` has `len` bytes
/// for WRITE(10) and WRITE(16) and is empty otherwise.
pub fn command_fits(command: &Command) -> bool
    ensures { result ≡ fits command.now }
{
    let cdb_len = command.cdb.len();
    let named = length_of(&command.cdb).unwrap_or(u64::from(command.len));
    let payload_len = if is_write(&command.cdb) {
        command.len
    } else {
        0
    };
    1 <= cdb_len
        && cdb_len <= 16
        && command.len <= MAX_TRANSFER as u32
        && named == u64::from(command.len)
        && command.payload.len() == payload_len as usize
}

/// The number of bytes that the command moved, given its result: those of `payload` for a WRITE
/// whose status is GOOD, none for another WRITE, and else those of the result's data.
pub fn moved(command: &Command, outcome: &ScsiResult) -> u32
    ensures { result ≡ moved_by command.now outcome.now }
{
    if !is_write(&command.cdb) {
        outcome.payload.len() as u32
    } else if outcome.status == GOOD {
        command.payload.len() as u32
    } else {
        0
    }
}

// Whether the CDB is WRITE(10) or WRITE(16).
fn is_write(cdb: &Cdb) -> bool
    ensures { result ≡ is_write_of cdb.now }
{
    matches!(cdb.byte(0), WRITE_10 | WRITE_16)
}
