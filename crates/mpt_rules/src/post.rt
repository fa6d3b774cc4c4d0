//! A post in a queue of the controller.
use scsi_disk::Bytes;

/// A request descriptor with its frame and data.
#[derive(Drop)]
pub struct Post {
    /// The little-endian number of the descriptor's 8 bytes (mpi2.h, MPI2_REQUEST_DESCRIPTOR_UNION).
    pub descriptor: u64,
    /// The request frame.
    pub frame: [u8; 128],
    /// The data of a write.
    pub payload: Bytes,
}
