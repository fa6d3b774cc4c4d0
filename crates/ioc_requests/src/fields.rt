//! Fields of a post that are looked at whatever else it has.
ghost use Rattle.std.specs.Prelude.{◌≡◌};
ghost use Rattle.mpt_wire.specs.Messages.Fields.{dev_handle_in, function_in, handle_in, kind_in};

use byteorder::{ByteOrder, LittleEndian};
use mpi_names::{
    Handle, MPI2_REQ_DESCRIPT_FLAGS_DEFAULT_TYPE, MPI2_REQ_DESCRIPT_FLAGS_HIGH_PRIORITY,
    MPI2_REQ_DESCRIPT_FLAGS_SCSI_IO,
};
use mpi_rings::PostKind;

/// The kind of a post by its descriptor's RequestFlags. None exactly where they are of no kind.
pub fn kind_of(descriptor: u64) -> Option<PostKind>
    ensures { result ≡ kind_in descriptor }
{
    match (descriptor % 0x100) as u8 {
        MPI2_REQ_DESCRIPT_FLAGS_SCSI_IO => Some(PostKind::ScsiIo),
        MPI2_REQ_DESCRIPT_FLAGS_HIGH_PRIORITY => Some(PostKind::HighPriority),
        MPI2_REQ_DESCRIPT_FLAGS_DEFAULT_TYPE => Some(PostKind::Default),
        _ => None,
    }
}

/// The DevHandle of a SCSI IO's descriptor.
pub fn handle_of(descriptor: u64) -> Handle
    ensures { result ≡ handle_in descriptor }
{
    (descriptor / 0x1_0000_0000_0000) as Handle
}

/// The DevHandle of a SCSI IO's frame.
pub fn dev_handle_of(frame: &[u8; 128]) -> Handle
    ensures { result ≡ dev_handle_in frame.now }
{
    LittleEndian::read_u16(frame)
}

/// The function's byte of a frame.
pub fn function_byte(frame: &[u8; 128]) -> u8
    ensures { result ≡ function_in frame.now }
{
    frame[3]
}
