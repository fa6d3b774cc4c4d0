//! Worked replies.
ghost use Rattle.std.specs.Prelude.{◌<◌};

use crate::{HeardReply, address_of_frame, check_descriptor, smid_of_reply};
use scsi_disk::Bytes;
use std::alloc::Global;

// A reply with a frame in which this byte stands at this place.
fn reply_with(alloc: Global, place: usize, byte: u8) -> HeardReply
    requires { place < 128 }
{
    let mut frame = [0; 128];
    frame[place] = byte;
    HeardReply::new(
        0x0001_0080_0000_0001,
        Some(frame),
        Bytes::empty(alloc),
        Bytes::empty(alloc),
    )
}

#[test]
fn descriptors(rt: HostRuntime) {
    assert_eq!(rt; smid_of_reply(0x0000_0001_0001_0000), 1);
    assert_eq!(rt; address_of_frame(0x0001_0080_0000_0001), 0x0001_0080);
    assert!(rt; check_descriptor(0x0000_0100_0100_0000, &None).is_ok());
    assert!(rt; check_descriptor(0x0000_0101_0101_0000, &None).is_err());
    assert!(rt; check_descriptor(0x0001_0080_0000_0001, &None).is_err());
    assert!(rt; check_descriptor(0x0001_0080_0000_0001, &Some([0; 128])).is_ok());
}

#[test]
fn frames(rt: HostRuntime) {
    let event = reply_with(rt.alloc(), 0x14, 0x1c);
    assert_eq!(rt; event.frame(), Some(1));
    assert_eq!(rt; event.event(), 0x001c);
    assert_eq!(rt; event.count_changes(), 0);
    let task = reply_with(rt.alloc(), 0x15, 1);
    assert_eq!(rt; task.termination_count(), 256);
}
