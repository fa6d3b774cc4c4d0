//! What the host puts for the controller.
ghost use Rattle.std.specs.Prelude.{◌≡◌, ◌≢◌, ◌≤◌, length};
ghost use Rattle.mpt_c_hosts.specs.Down.{FillsDown, PutsDown, down_head, request_data_after, request_frame_after};

use host_core::Host;
use mpt_c_messages::{CallCode, put_front};
use mpt_trace::Down;
use scsi_disk::Bytes;
use std::mem::size_of;

/// What stands before the data of an item that the host puts for the controller (mpt.h, `mpt_down_head`).
#[repr(C)]
#[derive(Clone, Copy, Debug, PartialEq, Eq)]
pub struct DownHead {
    /// The little-endian number of the request descriptor's 8 bytes, of a post.
    pub descriptor: u64,
    /// Which item: 1 a write to a register, 2 a read, 3 a post, 4 a reply frame that is given back, 5 the last.
    pub kind: u32,
    /// What is written, or the reply frame's address.
    pub value: u32,
    /// The register's offset in bytes, or the value of ReplyFreeHostIndex after the return.
    pub at: u32,
    /// How many bytes of data the host holds ready for the request.
    pub data_length: u32,
}

// C has the same layout: mpt.h asserts it too.
const _: () = prove!(size_of::<DownHead>() == 24);

/// Takes what the host puts next on the lane down. Nothing where there is nothing. ShortBuffer exactly where the data has
/// no room for 4,096 bytes.
pub fn put_down(
    host: &mut Host,
    head: &mut DownHead,
    frame: &mut [u8; 128],
    bytes: &mut [u8],
) -> CallCode
    ensures put { PutsDown host.old host.new (FillsDown head.old head.new frame.old frame.new bytes.old bytes.new) result }
    ensures room { 4096 ≤ length bytes.old → result ≢ CallCode.ShortBuffer }
{
    if bytes.len() < Bytes::MAX_LEN {
        return CallCode::ShortBuffer;
    }
    if host.front_down().is_none() {
        return CallCode::Nothing;
    }
    fill(&host.sent_down(), head, frame, bytes);
    CallCode::Ok
}

// Writes the item.
fn fill(item: &Down, head: &mut DownHead, frame: &mut [u8; 128], bytes: &mut [u8])
    requires { 4096 ≤ length bytes.old }
    ensures head { head.new ≡ down_head item.now }
    ensures frame { frame.new ≡ request_frame_after item.now frame.old }
    ensures bytes { bytes.new ≡ request_data_after item.now bytes.old }
{
    *head = DownHead::of(item);
    if let Down::Post {
        frame: sent,
        payload,
        ..
    } = item
    {
        *frame = *sent;
        put_front(payload.as_slice(), bytes);
    }
}

impl DownHead {
    // What stands before the item's data.
    fn of(item: &Down) -> DownHead
        ensures { result ≡ down_head item.now }
    {
        match item {
            Down::Write { reg, value } => DownHead::with_words(1, *value, u32::from(*reg)),
            Down::Read { reg } => DownHead::with_words(2, 0, u32::from(*reg)),
            Down::Post {
                descriptor,
                payload,
                ..
            } => DownHead {
                descriptor: *descriptor,
                kind: 3,
                value: 0,
                at: 0,
                data_length: payload.len() as u32,
            },
            Down::Return { address, index } => {
                DownHead::with_words(4, *address, u32::from(*index))
            }
            Down::Stop => DownHead::with_words(5, 0, 0),
        }
    }

    // An item without a descriptor.
    fn with_words(kind: u32, value: u32, at: u32) -> DownHead
        ensures { result ≡ record { descriptor = 0; kind = kind; value = value; at = at; data_length = 0 } }
    {
        DownHead {
            descriptor: 0,
            kind,
            value,
            at,
            data_length: 0,
        }
    }
}
