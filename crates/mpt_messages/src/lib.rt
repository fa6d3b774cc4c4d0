//! All messages of the profile together, their listings, and the frames that the two ends write.
#![tactic(auto)]

mod decode;
mod descriptor_listing;
mod device_pages;
mod event_listing;
mod fault;
mod frame;
mod function;
mod host_ask;
mod ioc_reply;
mod listing;
mod message;
mod refusal_listing;
#[cfg(test)]
mod tests;

pub use decode::{decode_reply, decode_request};
pub use descriptor_listing::{list_page, list_reply_descriptor, list_request_descriptor};
pub use device_pages::device_page;
pub use fault::MsgFault;
pub use function::{Function, Kind};
pub use host_ask::{HostAsk, host_frame};
pub use ioc_reply::{IocReply, ioc_frame};
pub use listing::{
    push_fault, push_heading, push_listing, push_rows, push_rows_from, push_short, push_tail,
};
pub use message::{Message, encode, list_text, message_fits};
pub use refusal_listing::{push_reply_refusal, push_request_refusal};
