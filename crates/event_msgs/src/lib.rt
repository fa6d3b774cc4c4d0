//! The event messages, and the SAS topology change list.
#![tactic(auto)]

mod event_ack;
mod event_ack_reply;
mod event_ask;
mod event_data;
mod event_reply;
mod topology;
mod topology_entry;

pub use event_ack::{EventAck, decode_event_ack, encode_event_ack, event_ack_fits};
pub use event_ack_reply::{
    EventAckReply, decode_event_ack_reply, encode_event_ack_reply, event_ack_reply_fits,
};
pub use event_ask::{EventAsk, decode_event_ask, encode_event_ask, event_ask_fits};
pub use event_data::EventData;
pub use event_reply::{EventReply, decode_event_reply, encode_event_reply, event_reply_fits};
pub use topology::Topology;
pub use topology_entry::TopologyEntry;
