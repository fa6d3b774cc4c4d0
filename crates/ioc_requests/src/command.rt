//! The command of a SCSI IO.
ghost use Rattle.std.specs.Prelude.{◌≡◌, ◌≤◌, drop, take};
ghost use Rattle.scsi_disk.specs.Command.{is_write};
ghost use Rattle.scsi_msgs.specs.ScsiIo.{ScsiIoStands};
ghost use Rattle.mpt_rules.specs.Ioc.Commands.{command_in, kept_of, moved_by};

use mpi_names::{Handle, MPI2_SCSI_STATUS_GOOD, WRITE_10, WRITE_16};
use mpt_rules::{AtFabric, Post};
use scsi_disk::{Cdb, Command, ScsiResult};
use scsi_msgs::ScsiIo;

// Where a SCSI IO request has its CDB (mpi2_init.h, MPI2_SCSI_IO_REQUEST).
const CDB: usize = 0x40;

/// The command that the message asks for, with the post's data. The frame is the message's. It takes no memory.
pub fn command_of(io: &ScsiIo, post: Post) -> Command
    requires { ScsiIoStands io.now post.frame }
    ensures { result ≡ command_in post.frame post.payload }
{
    Command {
        lun: io.lun,
        cdb: cdb_of(&post.frame, usize::from(io.io_flags)),
        len: io.data_length,
        payload: post.payload,
    }
}

// The CDB of so many bytes in a frame.
fn cdb_of(frame: &[u8; 128], len: usize) -> Cdb
    requires { len ≤ 32 }
    ensures { result ≡ take len (drop 0x40 frame.now) }
{
    Cdb::new(&frame[CDB..CDB + len])
}

/// What the controller keeps of a command while it is at the fabric.
pub fn kept_of(handle: Handle, queue: u8, command: &Command) -> AtFabric
    ensures { result ≡ kept_of handle queue command.now }
{
    let written = if is_write(&command.cdb) {
        Some(command.payload.len() as u32)
    } else {
        None
    };
    AtFabric::Command {
        handle,
        queue,
        len: command.len,
        written,
    }
}

// Whether the CDB is a WRITE.
fn is_write(cdb: &Cdb) -> bool
    ensures { result ≡ is_write cdb.now }
{
    matches!(cdb.as_slice().first(), Some(&(WRITE_10 | WRITE_16)))
}

/// How many bytes a command moved: a WRITE its data where the status is GOOD and else none, another what came back.
pub fn moved_by(written: Option<u32>, outcome: &ScsiResult) -> u32
    ensures { result ≡ moved_by written outcome.now }
{
    match written {
        None => outcome.payload.len() as u32,
        Some(written) if outcome.status == MPI2_SCSI_STATUS_GOOD => written,
        Some(_) => 0,
    }
}
