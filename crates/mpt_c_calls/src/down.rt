//! What the controller takes from the host.
ghost use Rattle.std.specs.Prelude.{length, nat_le};
ghost use Rattle.mpt_c_calls.specs.Down.{TakesDown, TakesPost};
ghost use Rattle.mpt_trace.specs.declared.item.Down.TheVariants as down;

use ioc_core::Ioc;
use mpt_c_messages::CallCode;
use mpt_trace::Down;
use scsi_disk::Bytes;
use std::alloc::Global;

/// Takes a write to the register at an offset.
pub fn take_write(ioc: &mut Ioc, reg: u16, value: u32) -> CallCode
    ensures { TakesDown ioc.old ioc.new (down.Write reg value) result }
{
    take(ioc, Down::Write { reg, value })
}

/// Takes a read of the register at an offset. Its value comes up on reply queue 0.
pub fn take_read(ioc: &mut Ioc, reg: u16) -> CallCode
    ensures { TakesDown ioc.old ioc.new (down.Read reg) result }
{
    take(ioc, Down::Read { reg })
}

/// Takes a reply frame that is given back, with the value of ReplyFreeHostIndex after it.
pub fn take_return(ioc: &mut Ioc, address: u32, index: u16) -> CallCode
    ensures { TakesDown ioc.old ioc.new (down.Return address index) result }
{
    take(ioc, Down::Return { address, index })
}

/// Takes a post: the number of its descriptor's 8 bytes, its frame, and the data that the host holds ready for it.
/// NoSuch exactly where the data has more than 4,096 bytes.
pub fn take_post(
    alloc: Global,
    ioc: &mut Ioc,
    descriptor: u64,
    frame: &[u8; 128],
    payload: &[u8],
) -> CallCode
    ensures { TakesPost (nat_le (length payload.now) 4096) ioc.old ioc.new (down.Post descriptor frame.now payload.now) result }
{
    if payload.len() > Bytes::MAX_LEN {
        return CallCode::NoSuch;
    }
    let Ok(items) = payload.to_vec(alloc) else {
        return CallCode::NoMemory;
    };
    let item = Down::Post {
        descriptor,
        frame: *frame,
        payload: Bytes::new(items),
    };
    take(ioc, item)
}

fn take(ioc: &mut Ioc, item: Down) -> CallCode
    ensures taken { TakesDown ioc.old ioc.new item result }
{
    match ioc.take_down(item) {
        Ok(()) => CallCode::Ok,
        Err(_) => CallCode::NoMemory,
    }
}
