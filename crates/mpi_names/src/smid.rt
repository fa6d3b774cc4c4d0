//! The classes of identifiers. The interface has one range of them, as long as RequestCredit says
//! (mpi2_ioc.h, MPI2_IOC_FACTS_REPLY); how it is split is the driver's choice, here this profile's.
use crate::aliases::Smid;

/// The number of identifiers, which are 1 to 280; the controller's RequestCredit.
pub const SMIDS: usize = 280;

/// The number of identifiers of SCSI IO requests.
pub const SCSI_IO_SMIDS: usize = 256;

/// The number of identifiers of high priority requests, as task management; the controller's
/// HighPriorityCredit (mpi2_ioc.h, MPI2_IOC_FACTS_REPLY).
pub const HIGH_PRIORITY_SMIDS: usize = 8;

/// The number of identifiers of the host's other requests.
pub const INTERNAL_SMIDS: usize = 16;

/// The first identifier of a SCSI IO request.
pub const FIRST_SCSI_IO_SMID: Smid = 1;

/// The last identifier of a SCSI IO request.
pub const LAST_SCSI_IO_SMID: Smid = 256;

/// The first identifier of a high priority request.
pub const FIRST_HIGH_PRIORITY_SMID: Smid = 257;

/// The last identifier of a high priority request.
pub const LAST_HIGH_PRIORITY_SMID: Smid = 264;

/// The first identifier of another request.
pub const FIRST_INTERNAL_SMID: Smid = 265;

/// The last identifier of another request.
pub const LAST_INTERNAL_SMID: Smid = 280;
