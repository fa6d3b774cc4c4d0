//! The numbers by which the parties name things.

/// A system message identifier (SMID): the host's number for a request, from 1 to 280 (mpi2.h,
/// MPI2_DEFAULT_REQUEST_DESCRIPTOR, SMID).
pub type Smid = u16;

/// A device handle, by which host and controller name a disk or an expander (mpi2_init.h,
/// MPI2_SCSI_IO_REQUEST, DevHandle).
pub type Handle = u16;

/// A task's tag between controller and fabric: the SMID of its SCSI IO request (mpi2_init.h,
/// MPI2_SCSI_IO_REPLY, TaskTag).
pub type Tag = u16;

/// A SAS address, 64 bits (mpi2_cnfg.h, MPI2_CONFIG_PAGE_SAS_DEV_0, SASAddress).
pub type Address = u64;
