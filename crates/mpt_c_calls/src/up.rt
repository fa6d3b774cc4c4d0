//! What the controller puts for the host.
ghost use Rattle.std.specs.Prelude.{◌≡◌, ◌≢◌, ◌≤◌, length};
ghost use Rattle.mpt_c_calls.specs.Up.{FillsUp, PutsUp, frame_after, head_with, page_after, sense_after, up_head};

use ioc_core::Ioc;
use mpt_c_messages::{CallCode, UpHead, put_front};
use mpt_trace::Up;

const MAX_DATA: usize = 4096;

/// Takes what the controller puts next on the lane of a reply queue. Nothing where there is nothing, or its front waits
/// for a reply frame. ShortBuffer where the page or the sense data has no room for 4,096 bytes.
pub fn put_up(
    ioc: &mut Ioc,
    queue: u8,
    head: &mut UpHead,
    frame: &mut [u8; 128],
    page: &mut [u8],
    sense: &mut [u8],
) -> CallCode
    ensures put { PutsUp ioc.old ioc.new queue
        (FillsUp head.old head.new frame.old frame.new page.old page.new sense.old sense.new) result }
    ensures room { 4096 ≤ length page.old → 4096 ≤ length sense.old → result ≢ CallCode.ShortBuffer }
{
    if page.len() < MAX_DATA || sense.len() < MAX_DATA {
        return CallCode::ShortBuffer;
    }
    match ioc.front_up_on(queue) {
        Err(_) => CallCode::NoMemory,
        Ok(None) => CallCode::Nothing,
        Ok(Some(item)) => {
            fill(&item, head, frame, page, sense);
            ioc.sent_up_on(queue);
            CallCode::Ok
        }
    }
}

// Writes the item.
fn fill(item: &Up, head: &mut UpHead, frame: &mut [u8; 128], page: &mut [u8], sense: &mut [u8])
    requires page { 4096 ≤ length page.old }
    requires sense { 4096 ≤ length sense.old }
    ensures head { head.new ≡ up_head item.now }
    ensures frame { frame.new ≡ frame_after item.now frame.old }
    ensures page { page.new ≡ page_after item.now page.old }
    ensures sense { sense.new ≡ sense_after item.now sense.old }
{
    match item {
        Up::Value(value) => *head = head_with(1, *value),
        Up::Reply {
            descriptor,
            frame: sent,
            page: data,
            sense: sensed,
        } => {
            let mut has_frame = 0;
            if let Some(bytes) = sent {
                *frame = *bytes;
                has_frame = 1;
            }
            *head = UpHead {
                descriptor: *descriptor,
                kind: 2,
                value: 0,
                has_frame,
                page_length: data.len() as u32,
                sense_length: sensed.len() as u32,
            };
            put_front(data.as_slice(), page);
            put_front(sensed.as_slice(), sense);
        }
        Up::Mark { generation } => *head = head_with(3, *generation),
        Up::Calm => *head = head_with(4, 0),
    }
}

// The head of an item without a descriptor.
fn head_with(kind: u32, value: u32) -> UpHead
    ensures { result ≡ head_with kind value }
{
    UpHead {
        descriptor: 0,
        kind,
        value,
        has_frame: 0,
        page_length: 0,
        sense_length: 0,
    }
}
