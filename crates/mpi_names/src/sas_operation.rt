//! The Operation of a SAS IO unit control request (mpi2_sas.h).

/// The controller may forget the device, and give its handle again.
pub const MPI2_SAS_OP_REMOVE_DEVICE: u8 = 0x0d;
