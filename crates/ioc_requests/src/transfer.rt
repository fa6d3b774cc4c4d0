//! Whether the parts of a SCSI IO's transfer go together.
ghost use Rattle.std.specs.Prelude.{◌≡◌, ◌==◌};
ghost use Rattle.scsi_msgs.specs.ScsiIo.{ScsiIoStands};
ghost use Rattle.mpt_rules.specs.Ioc.Commands.{differ, is_inconsistent};

use mpi_names::MAX_TRANSFER;
use mpt_rules::Post;
use scsi_msgs::ScsiIo;

// ControlDirection: mpi2_init.h, MPI2_SCSIIO_CONTROL_NODATATRANSFER.
const NO_DATA: u8 = 0;
// ControlDirection: mpi2_init.h, MPI2_SCSIIO_CONTROL_WRITE.
const WRITE: u8 = 1;
// The flags of a simple element whose data go to the disk: mpi2.h, MPI2_SGE_FLAGS_HOST_TO_IOC among them.
const TO_DISK_FLAGS: u8 = 0xd7;

/// Whether the parts of the transfer that the message asks for don't go together. The frame is the message's.
pub fn is_inconsistent(io: &ScsiIo, post: &Post) -> bool
    requires { ScsiIoStands io.now post.now.frame }
    ensures { result ≡ is_inconsistent post.now.frame post.now.payload }
{
    let to_disk = io.control_direction == WRITE;
    let held = if to_disk { io.data_length } else { 0 };
    (io.sge_length != io.data_length)
        | (io.data_length > MAX_TRANSFER as u32)
        | differ(io.control_direction == NO_DATA, io.data_length == 0)
        | differ(io.sge_flags == TO_DISK_FLAGS, to_disk)
        | (post.payload.len() != held as usize)
}

// Whether exactly one holds.
fn differ(a: bool, b: bool) -> bool
    ensures { result ≡ differ a b }
{
    a != b
}
