//! What a post asks of the controller: the message in its frame, the command of a SCSI IO, and the configuration page
//! that a request is for. Each function carries out one word of the controller's rules.
#![tactic(auto)]

mod asked;
mod command;
mod fields;
mod page;
mod transfer;

pub use asked::{Asked, PostRead, read_asked, refusal_status};
pub use command::{command_of, kept_of, moved_by};
pub use fields::{dev_handle_of, function_byte, handle_of, kind_of};
pub use page::page_bytes;
pub use transfer::is_inconsistent;
