//! What IOC Init and IOC Facts say of the two ends (mpi2.h, mpi2_ioc.h).

/// MsgVersion of MPI 2.0.
pub const MPI2_VERSION_02_00: u16 = 0x0200;

/// WhoInit: the host driver.
pub const MPI2_WHOINIT_HOST_DRIVER: u8 = 0x04;

/// The most reply descriptor post queues (mpi2_ioc.h, MPI2_IOC_FACTS_REPLY, MaxMSIxVectors); this
/// profile's choice.
pub const REPLY_QUEUES: u8 = 8;
