//! What comes up from the controller.
ghost use Rattle.std.specs.Prelude.{◌≡◌, ◌<◌, IfErr, IfOk, None, Some, length};
ghost use Rattle.mpt_rules.specs.Host.Takes.{takes_up};
ghost use Rattle.mpt_c_hosts.specs.Reading.{IsUnread};
ghost use Rattle.mpt_c_hosts.specs.Up.{Hears, HearsItem, are_there, reply_of, up_of, up_on};

use crate::strange_words::StrangeWords;
use host_core::{Host, TakeFault};
use mpt_c_messages::{CallCode, UpHead};
use mpt_trace::Up;
use scsi_disk::Bytes;
use std::alloc::Global;

/// The host takes what came up on a reply queue. NoSuch where the head is no item's, its lengths are greater than 4,096 or
/// than the data that is there, or there is no such queue.
pub fn hear_up(
    alloc: Global,
    host: &mut Host,
    queue: u8,
    head: &UpHead,
    frame: &[u8; 128],
    page: &[u8],
    sense: &[u8],
    strange: &mut StrangeWords,
) -> CallCode
    ensures { Hears host.old host.new queue (up_on host.old.host queue head.now frame.now page.now sense.now) strange.old strange.new result }
{
    if queue >= host.queues() {
        return CallCode::NoSuch;
    }
    match read_up(alloc, head, frame, page, sense) {
        Err(code) => code,
        Ok(item) => hear(host, queue, item, strange),
    }
}

// The host takes an item.
fn hear(host: &mut Host, queue: u8, item: Up, strange: &mut StrangeWords) -> CallCode
    requires { queue < length host.old.host.indices }
    ensures { HearsItem host.old host.new strange.old strange.new (takes_up host.old.host queue item) result }
{
    match host.take_up_on(queue, item) {
        Ok(()) => CallCode::Ok,
        Err(TakeFault::NoRoom { .. }) => CallCode::NoMemory,
        Err(TakeFault::Strange { why, .. }) => {
            *strange = StrangeWords::of(why);
            CallCode::Refused
        }
    }
}

// The item that stands for what C hands over.
fn read_up(
    alloc: Global,
    head: &UpHead,
    frame: &[u8; 128],
    page: &[u8],
    sense: &[u8],
) -> Result<Up, CallCode>
    ensures read { IfOk result (λ item. up_of head.now frame.now page.now sense.now ≡ Some item) }
    ensures refused { IfErr result (IsUnread (up_of head.now frame.now page.now sense.now)) }
{
    match head.kind {
        1 => Ok(Up::Value(head.value)),
        2 => read_reply(alloc, head, frame, page, sense),
        3 => Ok(Up::Mark {
            generation: head.value,
        }),
        4 => Ok(Up::Calm),
        _ => Err(CallCode::NoSuch),
    }
}

// The reply.
fn read_reply(
    alloc: Global,
    head: &UpHead,
    frame: &[u8; 128],
    page: &[u8],
    sense: &[u8],
) -> Result<Up, CallCode>
    ensures read { IfOk result (λ item. reply_of head.now frame.now page.now sense.now ≡ Some item) }
    ensures refused { IfErr result (IsUnread (reply_of head.now frame.now page.now sense.now)) }
{
    let page_length = head.page_length as usize;
    let sense_length = head.sense_length as usize;
    if !are_there(page_length, page) || !are_there(sense_length, sense) {
        return Err(CallCode::NoSuch);
    }
    let frame = if head.has_frame == 0 {
        None
    } else {
        Some(*frame)
    };
    match (
        page[..page_length].to_vec(alloc),
        sense[..sense_length].to_vec(alloc),
    ) {
        (Ok(page), Ok(sense)) => Ok(Up::Reply {
            descriptor: head.descriptor,
            frame,
            page: Bytes::new(page),
            sense: Bytes::new(sense),
        }),
        _ => Err(CallCode::NoMemory),
    }
}

// Whether so many bytes may move, and are there.
fn are_there(count: usize, bytes: &[u8]) -> bool
    ensures { result ≡ are_there count bytes.now }
{
    count <= Bytes::MAX_LEN && count <= bytes.len()
}
