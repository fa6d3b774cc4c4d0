//! The classes of identifiers.
ghost use Rattle.std.specs.Prelude.{◌≡◌, ◌+◌};
ghost use Rattle.smid_pool.specs.Class.{before, size_of};

use mpi_names::{HIGH_PRIORITY_SMIDS, INTERNAL_SMIDS, SCSI_IO_SMIDS};

/// The class of an identifier, by the request that it is for.
#[derive(Clone, Copy, Debug, PartialEq, Eq)]
pub enum Class {
    /// 1 to 256: SCSI IO requests.
    ScsiIo,
    /// 257 to 264: high priority requests, as task management.
    High,
    /// 265 to 280: the host's other requests.
    Internal,
}

impl Class {
    // How many identifiers stand before the class's first.
    pub(crate) fn before(self) -> usize
        ensures { result ≡ before self }
    {
        match self {
            Class::ScsiIo => 0,
            Class::High => SCSI_IO_SMIDS,
            Class::Internal => SCSI_IO_SMIDS + HIGH_PRIORITY_SMIDS,
        }
    }

    // How many identifiers the class has.
    pub(crate) fn size(self) -> usize
        ensures { result ≡ size_of self }
    {
        match self {
            Class::ScsiIo => SCSI_IO_SMIDS,
            Class::High => HIGH_PRIORITY_SMIDS,
            Class::Internal => INTERNAL_SMIDS,
        }
    }
}
