//! The SCSI IO and task management messages.
#![tactic(auto)]

mod scsi_io;
mod scsi_reply;
mod task_ask;
mod task_reply;

pub use scsi_io::{ScsiIo, decode_scsi_io, encode_scsi_io, scsi_io_fits};
pub use scsi_reply::{ScsiReply, decode_scsi_reply, encode_scsi_reply, scsi_reply_fits};
pub use task_ask::{TaskAsk, decode_task_ask, encode_task_ask, task_ask_fits};
pub use task_reply::{TaskReply, decode_task_reply, encode_task_reply, task_reply_fits};
