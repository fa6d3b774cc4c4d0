//! What an identifier stands for at the host.
use mpt_trace::{Address, Handle, Smid};

/// What an open identifier was posted for.
#[derive(Clone, Copy)]
pub enum Request {
    /// The submission of a number: a SCSI IO.
    Command { n: u32 },
    /// An abort of that number, whose SCSI IO has the identifier `task`.
    Abort { n: u32, task: Smid },
    /// A target reset that was asked from outside.
    TargetReset { address: Address },
    /// The target reset of a handle's removal.
    Leave { handle: Handle },
    /// A read of SAS Device Page 0.
    Page { handle: Handle },
    /// The remove device of a handle's removal.
    Remove { handle: Handle },
    /// An acknowledgement of an event.
    Ack { event: u16, context: u32 },
    /// The event notification of a start.
    Notification,
    /// The port enable of a start.
    PortEnable,
}
