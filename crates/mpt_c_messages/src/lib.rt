//! What C reads of messages: the codes of calls, the first fault of bytes, listings in a buffer, and what stands before an item that
//! comes up. `mpt_c` exports it.
#![tactic(auto)]

mod call_code;
mod decode_as;
mod decoding;
mod fault_words;
mod listing;
mod putting;
mod reading;
mod up_head;

pub use call_code::CallCode;
pub use decode_as::DecodeAs;
pub use decoding::decode;
pub use fault_words::FaultWords;
pub use listing::list;
pub use putting::{put_bytes, put_front};
pub use up_head::UpHead;
