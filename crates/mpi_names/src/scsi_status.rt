//! What a SCSI IO reply says of its command: SCSIStatus and SCSIState (mpi2_init.h).

/// The command was done (SAM-5, GOOD).
pub const MPI2_SCSI_STATUS_GOOD: u8 = 0x00;

/// There are sense data (SAM-5, CHECK CONDITION).
pub const MPI2_SCSI_STATUS_CHECK_CONDITION: u8 = 0x02;

/// The sense data are in the sense buffer.
pub const MPI2_SCSI_STATE_AUTOSENSE_VALID: u8 = 0x01;
