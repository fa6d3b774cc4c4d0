//! Requests of the controller that aren't answered yet because of the fabric.
use mpt_trace::{Handle, Smid};

/// A request that the controller handed to the fabric.
#[derive(Clone, Copy)]
pub enum AtFabric {
    /// A SCSI IO.
    Command {
        /// Its DevHandle.
        handle: Handle,
        /// The reply queue that its answer goes to.
        queue: u8,
        /// Its DataLength, in bytes.
        len: u32,
        /// How many bytes of data it has for the disk, where its CDB is a WRITE.
        written: Option<u32>,
    },
    /// An abort task.
    Abort {
        handle: Handle,
    },
    /// A target reset of a present handle.
    TargetReset {
        handle: Handle,
    },
    /// A port enable, whose discovery is going on.
    PortEnable,
}

/// A target reset of a gone handle, which is answered as soon as no command of the handle is at the fabric.
#[derive(Clone, Copy)]
pub struct HeldReset {
    /// Its identifier.
    pub smid: Smid,
    /// Its DevHandle.
    pub handle: Handle,
}
