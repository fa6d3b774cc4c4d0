//! Reply descriptors.
ghost use Rattle.std.specs.Prelude.{◌≡◌};
ghost use Rattle.mpt_wire.specs.Messages.Fields.{flags_in, frame_address_in, smid_in};
ghost use Rattle.mpt_rules.specs.Host.Strange.{is_scsi_smid};

use mpi_names::{FIRST_SCSI_IO_SMID, LAST_SCSI_IO_SMID};
use mpt_trace::Smid;

/// ReplyFlags of a reply descriptor.
pub(crate) fn flags_of(descriptor: u64) -> u8
    ensures { result ≡ flags_in descriptor }
{
    (descriptor % 0x100) as u8
}

/// The identifier that a reply descriptor names, 0 for an event.
pub fn smid_of_reply(descriptor: u64) -> Smid
    ensures { result ≡ smid_in descriptor }
{
    (descriptor / 0x1_0000 % 0x1_0000) as Smid
}

/// ReplyFrameAddress of an address reply descriptor.
pub fn address_of_frame(descriptor: u64) -> u32
    ensures { result ≡ frame_address_in descriptor }
{
    (descriptor / 0x1_0000_0000) as u32
}

/// Whether the identifier is a SCSI IO's, from 1 to 256.
pub(crate) fn is_scsi_smid(smid: Smid) -> bool
    ensures { result ≡ is_scsi_smid smid }
{
    FIRST_SCSI_IO_SMID <= smid && smid <= LAST_SCSI_IO_SMID
}
