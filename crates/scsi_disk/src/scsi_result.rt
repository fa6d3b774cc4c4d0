//! The result of a command.
use crate::bytes::Bytes;
use mpi_names::{MPI2_SCSI_STATUS_CHECK_CONDITION, MPI2_SCSI_STATUS_GOOD};

/// SCSI status GOOD (SAM-5).
pub const GOOD: u8 = MPI2_SCSI_STATUS_GOOD;
/// SCSI status CHECK CONDITION (SAM-5).
pub const CHECK_CONDITION: u8 = MPI2_SCSI_STATUS_CHECK_CONDITION;

/// What a disk answered to a command.
#[derive(Debug, Drop)]
pub struct ScsiResult {
    /// The SCSI status (SAM-5): 00 GOOD or 02 CHECK CONDITION.
    pub status: u8,
    /// The data for the host, at most 4,096 bytes.
    pub payload: Bytes,
    /// Fixed format sense data (SPC-4): 18 bytes after CHECK CONDITION, none after GOOD.
    pub sense: Bytes,
}
