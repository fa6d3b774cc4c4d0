//! The first byte of a descriptor, RequestFlags or ReplyFlags (mpi2.h).

/// The request descriptor of a SCSI IO.
pub const MPI2_REQ_DESCRIPT_FLAGS_SCSI_IO: u8 = 0x00;

/// The request descriptor of a high priority request.
pub const MPI2_REQ_DESCRIPT_FLAGS_HIGH_PRIORITY: u8 = 0x06;

/// The request descriptor of any other request.
pub const MPI2_REQ_DESCRIPT_FLAGS_DEFAULT_TYPE: u8 = 0x08;

/// The reply descriptor of a SCSI IO that succeeded, without a reply frame.
pub const MPI2_RPY_DESCRIPT_FLAGS_SCSI_IO_SUCCESS: u8 = 0x00;

/// The reply descriptor of a reply in a reply frame.
pub const MPI2_RPY_DESCRIPT_FLAGS_ADDRESS_REPLY: u8 = 0x01;

/// The reply descriptor of an unused entry.
pub const MPI2_RPY_DESCRIPT_FLAGS_UNUSED: u8 = 0x0f;

/// An unused entry of a reply post queue: all ones (MPI2_RPY_DESCRIPT_UNUSED_WORD0_MARK and
/// MPI2_RPY_DESCRIPT_UNUSED_WORD1_MARK).
pub const UNUSED_ENTRY: u64 = 0xffff_ffff_ffff_ffff;
