//! Request and reply descriptors, and the reply free ring and the reply post ring.
#![tactic(auto)]

mod descriptor;
mod free_ring;
mod post_ring;
mod reply_descriptor;
mod request_descriptor;
#[cfg(test)]
mod tests;

pub use free_ring::FreeRing;
pub use post_ring::PostRing;
pub use reply_descriptor::{ReplyDescriptor, read_reply, write_reply};
pub use request_descriptor::{PostKind, RequestDescriptor, read_post, write_post};

/// There was no memory left.
pub use std::alloc::AllocError as OutOfMemory;
