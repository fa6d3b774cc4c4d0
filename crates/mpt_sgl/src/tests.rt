//! Worked lists.
ghost use Rattle.std.specs.Prelude.{◌≡◌, ◌≤◌, IsTrue, IfOk, length};
ghost use Rattle.std.specs.List.{list_all};
ghost use Rattle.mpt_sgl.specs.Pieces.{is_piece};

use crate::{
    ChainFrame, List, OutOfMemory, Piece, Pieces, SglFault, fault_text, frames_needed, list_text,
    read_list, write_list,
};
use std::alloc::Global;
use std::test::Fail;

// Three pieces that the device fills, with a frame at 0x0000000100000000.
const PIECES: [Piece; 3] = [
    Piece {
        address: 0x1000,
        len: 512,
    },
    Piece {
        address: 0x2000,
        len: 512,
    },
    Piece {
        address: 0x3000,
        len: 16,
    },
];

const FIRST: [u8; 32] = [
    0x00, 0x02, 0x00, 0x92, 0x00, 0x10, 0x00, 0x00, 0x00, 0x00, 0x00, 0x00, 0x18, 0x00, 0x00, 0x32,
    0x00, 0x00, 0x00, 0x00, 0x01, 0x00, 0x00, 0x00, 0x00, 0x00, 0x00, 0x00, 0x00, 0x00, 0x00, 0x00,
];

const IN_FRAME: [u8; 24] = [
    0x00, 0x02, 0x00, 0x12, 0x00, 0x20, 0x00, 0x00, 0x00, 0x00, 0x00, 0x00, 0x10, 0x00, 0x00, 0xd3,
    0x00, 0x30, 0x00, 0x00, 0x00, 0x00, 0x00, 0x00,
];

// The frame with its elements and zeros behind them.
fn frame() -> ChainFrame {
    let mut bytes = [0; 128];
    bytes[..24].copy_from_slice(&IN_FRAME);
    ChainFrame {
        address: 0x1_0000_0000,
        bytes,
    }
}

// So many pieces, each a byte longer than the one before.
fn growing_pieces(alloc: Global, count: u16) -> Result<Vec<Piece>, OutOfMemory>
    ensures sound { IfOk result (λ pieces. IsTrue (list_all is_piece pieces.items)) }
    ensures count { IfOk result (λ pieces. length pieces.items ≡ count) }
{
    let mut pieces = Vec::new(alloc);
    for i in 0..count {
        pieces.push(Piece {
            address: 0x1_0000 * u64::from(i),
            len: 1 + u32::from(i),
        })?;
    }
    Ok(pieces)
}

// The addresses of so many frames.
fn frame_addresses(alloc: Global, count: u8) -> Result<Vec<u64>, OutOfMemory>
    ensures { IfOk result (λ heads. length heads.items ≡ count) }
{
    let mut heads = Vec::new(alloc);
    for i in 0..count {
        heads.push(0x1_0000_0000 + 0x80 * u64::from(i))?;
    }
    Ok(heads)
}

#[test]
fn writes_and_reads_back(rt: HostRuntime) -> Result<(), Fail> {
    let alloc = rt.alloc();
    let chained = write_list(alloc, &PIECES, false, &[0x1_0000_0000])?;
    assert_eq!(rt; chained.offset, 0x1b);
    assert_eq!(rt; chained.first, FIRST);
    assert_eq!(rt; chained.frames.as_slice(), [frame()].as_slice());
    let list = read_list(alloc, 0x1b, &FIRST, &[frame()]).map_err(|_| "refused")?;
    assert!(rt; !list.to_device);
    assert_eq!(rt; list.pieces.as_slice(), PIECES.as_slice());
    let text = list_text(alloc, &list)?;
    assert_eq!(rt;
        text.as_bytes(),
        b"sgl 3 in\n0000000000001000 512\n0000000000002000 512\n0000000000003000 16\n".as_slice()
    );
    let mut one = Vec::new(alloc);
    one.push(Piece {
        address: u64::MAX,
        len: 0xff_ffff,
    })?;
    let outward = List {
        to_device: true,
        pieces: Pieces::new(one),
    };
    let text = list_text(alloc, &outward)?;
    assert_eq!(rt;
        text.as_bytes(),
        b"sgl 1 out\nffffffffffffffff 16777215\n".as_slice()
    );
    Ok(())
}

#[test]
fn writes_nothing_as_one_element(rt: HostRuntime) -> Result<(), Fail> {
    let alloc = rt.alloc();
    let chained = write_list(alloc, &[], false, &[])?;
    let mut first = [0; 32];
    first[3] = 0xd3;
    first[4..12].fill(0xff);
    assert_eq!(rt; chained.offset, 0x00);
    assert_eq!(rt; chained.first, first);
    assert!(rt; chained.frames.as_slice().is_empty());
    let list = read_list(alloc, 0x00, &first, &[]).map_err(|_| "refused")?;
    assert_eq!(rt;
        list_text(alloc, &list)?.as_bytes(),
        b"sgl 0 in\n".as_slice()
    );
    Ok(())
}

// Reads the worked list with another byte at a place, where the frame's bytes come behind those of
// the first area, and with the frame given so many times.
fn read_changed(
    alloc: Global,
    offset: u8,
    place: usize,
    byte: u8,
    count: u8,
) -> Result<Result<List, SglFault>, OutOfMemory> {
    let mut first = FIRST;
    let mut changed = frame();
    if place < 32 {
        first[place] = byte;
    } else if place < 160 {
        changed.bytes[place - 32] = byte;
    }
    let frames = vec![in alloc; changed; usize::from(count)]?;
    Ok(read_list(alloc, offset, &first, &frames))
}

#[test]
fn finds_the_first_fault(rt: HostRuntime) -> Result<(), Fail> {
    let alloc = rt.alloc();
    let flags = |segment, element| SglFault::Flags { segment, element };
    let length = |segment, element| SglFault::Length { segment, element };
    let address = |segment, element| SglFault::Address { segment, element };
    for (offset, place, byte, count, fault, line) in [
        (0x1c, 3, 0x12, 0, SglFault::Offset(0x1c), "sgl offset\n"),
        (0x00, 3, 0x92, 1, flags(0, 0), "sgl flags 0 0\n"),
        (0x1b, 3, 0x12, 1, flags(0, 0), "sgl flags 0 0\n"),
        (0x1b, 1, 0x00, 0, length(0, 0), "sgl length 0 0\n"),
        (0x1b, 15, 0x30, 0, flags(0, 1), "sgl flags 0 1\n"),
        (0x1b, 12, 0x0c, 0, length(0, 1), "sgl length 0 1\n"),
        (0x1b, 14, 0x1b, 1, length(0, 1), "sgl length 0 1\n"),
        (0x1b, 16, 0x01, 1, address(0, 1), "sgl address 0 1\n"),
        (
            0x1b,
            31,
            0x01,
            0,
            SglFault::Missing { segment: 0 },
            "sgl missing 0\n",
        ),
        (
            0x1b,
            31,
            0x01,
            1,
            SglFault::Stray { segment: 0 },
            "sgl stray 0\n",
        ),
        (0x1b, 3, 0x96, 1, flags(1, 0), "sgl flags 1 0\n"),
        (0x1b, 12, 0x24, 1, flags(1, 1), "sgl flags 1 1\n"),
        (
            0x1b,
            159,
            0x01,
            2,
            SglFault::Stray { segment: 1 },
            "sgl stray 1\n",
        ),
        (
            0x1b,
            160,
            0x00,
            2,
            SglFault::Extra { kept: 1, given: 2 },
            "sgl extra\n",
        ),
    ] {
        match read_changed(alloc, offset, place, byte, count)? {
            Ok(_) => return Err(Fail::from("read")),
            Err(found) => assert_eq!(rt; found, fault, "{line}"),
        }
        assert_eq!(rt; fault_text(alloc, fault)?.as_bytes(), line.as_bytes());
    }
    Ok(())
}

#[test]
fn carries_256_pieces(rt: HostRuntime) -> Result<(), Fail> {
    let alloc = rt.alloc();
    assert_eq!(rt; frames_needed(256), 29);
    let pieces = growing_pieces(alloc, 256)?;
    let heads = frame_addresses(alloc, 29)?;
    let chained = write_list(alloc, &pieces, true, &heads)?;
    let mut frames = chained.frames.as_slice().to_vec(alloc)?;
    assert_eq!(rt; frames.len(), 29);
    let list = read_list(alloc, chained.offset, &chained.first, &frames).map_err(|_| "refused")?;
    assert!(rt; list.to_device);
    assert_eq!(rt; list.pieces.as_slice(), pieces.as_slice());
    // A fourth element in the last frame is that of the piece 257.
    frames[27].bytes[108] = 48;
    frames[28].bytes[27] = 0x16;
    frames[28].bytes[36] = 1;
    frames[28].bytes[39] = 0xd7;
    match read_list(alloc, chained.offset, &chained.first, &frames) {
        Ok(_) => Err(Fail::from("read")),
        Err(fault) => {
            assert_eq!(rt; fault, SglFault::Many);
            assert_eq!(rt;
                fault_text(alloc, fault)?.as_bytes(),
                b"sgl many\n".as_slice()
            );
            Ok(())
        }
    }
}
