//! The device handles. The interface leaves them to the controller, from MinDevHandle to MaxDevHandle
//! (mpi2_ioc.h, MPI2_IOC_FACTS_REPLY); these are this profile's.
use crate::aliases::Handle;

/// The first handle of a disk; the controller's MinDevHandle.
pub const FIRST_DISK_HANDLE: Handle = 0x0009;

/// The last handle of a disk.
pub const LAST_DISK_HANDLE: Handle = 0x0048;

/// The number of handles of disks.
pub const DISK_HANDLES: usize = 64;

/// The handle of expander 0. The others follow it.
pub const FIRST_EXPANDER_HANDLE: Handle = 0x0049;

/// The last handle of an expander; the controller's MaxDevHandle.
pub const LAST_EXPANDER_HANDLE: Handle = 0x0058;

/// The number of expanders at most.
pub const EXPANDERS: usize = 16;
