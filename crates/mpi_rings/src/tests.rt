//! Worked descriptors, and rings filled and emptied.
use crate::{
    FreeRing, PostKind, PostRing, ReplyDescriptor, RequestDescriptor, read_post, read_reply,
    write_post, write_reply,
};
use mpi_layout::Fault;
use mpi_names::UNUSED_ENTRY;
use std::test::Fail;

// A request descriptor with all other fields 0.
fn request(kind: PostKind, smid: u16, handle: u16) -> RequestDescriptor {
    RequestDescriptor {
        kind,
        msix: 0,
        smid,
        lmid: 0,
        handle,
    }
}

#[test]
fn requests(rt: HostRuntime) {
    let cases = [
        (
            *b"\x00\x00\x01\x00\x00\x00\x0a\x00",
            request(PostKind::ScsiIo, 1, 0x000a),
        ),
        (
            *b"\x06\x00\x01\x01\x00\x00\x00\x00",
            request(PostKind::HighPriority, 257, 0),
        ),
        (
            *b"\x08\x00\x09\x01\x00\x00\x00\x00",
            request(PostKind::Default, 265, 0),
        ),
        (
            *b"\x00\x01\x02\x03\x04\x05\x06\x07",
            RequestDescriptor {
                kind: PostKind::ScsiIo,
                msix: 0x01,
                smid: 0x0302,
                lmid: 0x0504,
                handle: 0x0706,
            },
        ),
    ];
    for (bytes, d) in cases {
        assert_eq!(rt; write_post(&d), bytes);
        assert_eq!(rt; read_post(&bytes), Ok(d));
    }
    let faults: [(&[u8], Fault); 3] = [
        (b"", Fault::Short { need: 8, have: 0 }),
        (
            b"\x02\x00\x01\x00\x00\x00\x0a",
            Fault::Short { need: 8, have: 7 },
        ),
        (
            b"\x02\x00\x01\x00\x00\x00\x0a\x00\xee",
            Fault::Field { at: 0 },
        ),
    ];
    for (bytes, fault) in faults {
        assert_eq!(rt; read_post(bytes), Err(fault));
    }
}

#[test]
fn replies(rt: HostRuntime) {
    let cases: [(&[u8], Result<ReplyDescriptor, Fault>); 7] = [
        (
            b"\x00\x00\x01\x00\x01\x00\x00\x00",
            Ok(ReplyDescriptor::Success {
                msix: 0,
                smid: 1,
                tag: 1,
                rest: 0,
            }),
        ),
        (
            b"\x01\x00\x09\x00\x00\x00\x01\x00",
            Ok(ReplyDescriptor::Address {
                msix: 0,
                smid: 9,
                address: 0x0001_0000,
            }),
        ),
        (
            b"\x0f\x01\x02\x03\x04\x05\x06\x07",
            Ok(ReplyDescriptor::Unused {
                flags: 0x0f,
                msix: 0x01,
                smid: 0x0302,
                rest: 0x0706_0504,
            }),
        ),
        (
            b"\xff\xff\xff\xff\xff\xff\xff\xff\xee",
            Ok(ReplyDescriptor::Unused {
                flags: 0xff,
                msix: 0xff,
                smid: 0xffff,
                rest: 0xffff_ffff,
            }),
        ),
        (b"", Err(Fault::Short { need: 8, have: 0 })),
        (
            b"\x02\x00\x09\x00\x00\x00\x01",
            Err(Fault::Short { need: 8, have: 7 }),
        ),
        (
            b"\x02\x00\x09\x00\x00\x00\x01\x00",
            Err(Fault::Field { at: 0 }),
        ),
    ];
    for (bytes, read) in cases {
        assert_eq!(rt; read_reply(bytes), read);
        if let Ok(d) = read_reply(bytes) {
            assert!(rt; bytes.starts_with(&write_reply(&d)));
        }
    }
}

#[test]
fn free_ring(rt: HostRuntime) -> Result<(), Fail> {
    let mut ring = FreeRing::new(rt.alloc())?;
    assert_eq!(rt; ring.take(), None);
    for frame in 0..80 {
        assert!(rt; !ring.is_full());
        ring.give(frame);
    }
    assert!(rt; ring.is_full());
    assert!(rt; ring.has(79) && !ring.has(80));
    assert_eq!(rt; ring.front(), Some(0));
    for frame in 0..80 {
        assert_eq!(rt; ring.take(), Some(frame));
    }
    assert_eq!(rt; ring.front(), None);
    assert!(rt; !ring.is_full());
    ring.give(7);
    ring.clear();
    assert!(rt; !ring.has(7));
    Ok(())
}

#[test]
fn post_ring(rt: HostRuntime) -> Result<(), Fail> {
    let mut ring = PostRing::new(rt.alloc())?;
    for round in 0..2 {
        for i in 0..352 {
            let d = 1000 * round + i;
            assert!(rt; !ring.is_full() && d != UNUSED_ENTRY);
            ring.post(d);
        }
        assert!(rt; ring.is_full());
        for i in 0..352 {
            assert_eq!(rt; ring.next(), Some(1000 * round + i));
            assert!(rt; ring.next().is_some());
            assert_eq!(rt; u64::from(ring.mark_read()), (i + 1) % 352);
        }
        assert_eq!(rt; ring.next(), None);
    }
    Ok(())
}
