//! What the host reads of what comes up: reply descriptors, reply frames, pages, events and the replies of
//! handshakes; and the checks of these that need no table of the host.
#![tactic(auto)]

mod change;
mod checks;
mod descriptor;
mod function_byte;
mod handshake;
mod heard;
mod number;
mod outcome;
mod page;
mod reply;
#[cfg(test)]
mod tests;

pub use change::{Change, first_not_absent, is_disk_handle};
pub use checks::{
    check_answer, check_descriptor, check_frame, check_queue_of_mark, check_queue_of_reply,
    check_queue_of_value, check_status, refuse_where,
};
pub use descriptor::{address_of_frame, smid_of_reply};
pub use handshake::check_handshake;
pub use heard::HeardReply;
