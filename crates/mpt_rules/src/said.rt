//! What waits in an up outbox of the controller.
use mpt_trace::Smid;
use scsi_disk::Bytes;

/// An item of an up outbox. A reply with a frame gets the address of one from the reply free ring as it is put.
#[derive(Drop)]
pub enum Said {
    /// The value of a register that was read.
    Value(u32),
    /// A SCSI IO success reply, which needs no frame (mpi2.h, MPI2_SCSI_IO_SUCCESS_REPLY_DESCRIPTOR).
    Success {
        smid: Smid,
        /// The bytes that a read moved.
        page: Bytes,
        /// Sense data.
        sense: Bytes,
    },
    /// A reply with a frame (mpi2.h, MPI2_ADDRESS_REPLY_DESCRIPTOR); an event has the Smid 0.
    Framed {
        smid: Smid,
        frame: [u8; 128],
        /// The bytes that a read moved, or a configuration page.
        page: Bytes,
        /// Sense data.
        sense: Bytes,
    },
    /// A reset's mark on a queue above 0: no reply of an earlier generation follows.
    Mark {
        generation: u32,
    },
    /// The fabric has nothing more to tell.
    Calm,
}
