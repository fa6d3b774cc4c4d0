//! Why the host refuses what comes up.
use mpt_messages::MsgFault;
use mpt_trace::{Handle, Smid};

/// Why an item that comes up is strange. The first that holds is told, in this order.
#[derive(Clone, Copy)]
pub enum Why {
    /// A value, or a reply of no SCSI IO, came on a queue above 0, or a mark on queue 0.
    WrongQueue(u8),
    /// A mark came where no reset is going on, or of another reset, or a second time.
    BadMark(u32),
    /// A value came and no read is outstanding.
    NoRead,
    /// The doorbell's steps refuse the value.
    DoorRefused { step: u8, value: u32 },
    /// The reply descriptor isn't read, is unused, or doesn't go with the frame or the Smid.
    BadDescriptor,
    /// The reply frame's address isn't a frame's, or the frame isn't the controller's.
    NotReturned(u32),
    /// The reply frame, or the bytes of a handshake's reply, stand for no message.
    BadFrame(MsgFault),
    /// The Smid isn't 0 and isn't open.
    NotOpen(Smid),
    /// The reply isn't one to what was asked.
    BadAnswer,
    /// The reply has an IOCStatus that the host doesn't take.
    BadStatus(u16),
    /// A topology event names a handle as added that isn't absent, or names one twice.
    NotAbsent(Handle),
}
