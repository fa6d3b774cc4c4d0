//! Worked runs, with sources and sinks that move pieces of every size and fail at every call.
ghost use Rattle.std.specs.Prelude.{◌<◌};

use super::*;
use mpt_outside::{MemorySink, MemorySource, NeverSink, NeverSource};
use std::alloc::{AllocError, Global};
use std::test::Fail;

/// TEST UNIT READY for the handle 0x000a, with an element of length 0.
const TEST_UNIT_READY: &str = "0a000000000000000000000060001000
00006000180000000000000000000000
00000000060000000000000000000000
00000000000000000000000000000000
00000000000000000000000000000000
00000000000000000000000000000000
000000d3ffffffffffffffff
";

/// Its listing.
const LISTING: &str = "scsi-io 108
00 DevHandle 0x000a
02 ChainOffset 0x00
03 Function 0x00
04 Reserved 0x0000
06 Reserved 0x00
07 MsgFlags 0x00
08 VP_ID 0x00
09 VF_ID 0x00
0a Reserved 0x0000
0c SenseBufferLowAddress 0x00100060
10 SGLFlags 0x0000
12 SenseBufferLength 0x60
13 Reserved 0x00
14 SGLOffset0 0x18
15 SGLOffset1 0x00
16 SGLOffset2 0x00
17 SGLOffset3 0x00
18 SkipCount 0x00000000
1c DataLength 0x00000000
20 BidirectionalDataLength 0x00000000
24 IoFlags 0x0006
26 EEDPFlags 0x0000
28 EEDPBlockSize 0x00000000
2c SecondaryReferenceTag 0x00000000
30 SecondaryApplicationTag 0x0000
32 ApplicationTagTranslationMask 0x0000
34 LUN 0000000000000000
3c ControlLow 0x00
3d ControlAttribute 0x00
3e ControlHigh 0x00
3f ControlDirection 0x00
40 CDB 0000000000000000
48 CDB 0000000000000000
50 CDB 0000000000000000
58 CDB 0000000000000000
60 SgeLength 0x000000
63 SgeFlags 0xd3
64 SgeAddress 0xffffffffffffffff
";

const USAGE_LINE: &str = "usage: mpt_cli decode <kind> | replay | show | gen <number>\n";

pub const NO_CALL: u32 = 4_000_000_000;

fn words_of(alloc: Global, line: &str) -> Result<Vec<String>, AllocError> {
    let mut words = Vec::new(alloc);
    for word in line.split(' ') {
        if !word.is_empty() {
            words.push(String::from_str(alloc, word)?)?;
        }
    }
    Ok(words)
}

// How a run ends and what was written, where the source and the sink move `piece` bytes at a time
// and fail at these calls.
pub fn outcome(
    alloc: Global,
    line: &str,
    input: &[u8],
    piece: usize,
    failing: (u32, u32),
) -> Result<(Status, Vec<u8>), Fail>
    requires { 0 < piece }
{
    let words = words_of(alloc, line)?;
    let mut reads = Vec::new(alloc);
    reads.push(failing.0)?;
    let mut writes = Vec::new(alloc);
    writes.push(failing.1)?;
    let mut source = MemorySource::new(input.to_vec(alloc)?, piece, reads);
    let mut sink = MemorySink::new(alloc, piece, 1_048_576, writes).map_err(|_| "no memory")?;
    let status = run(alloc, &words, &mut source, &mut sink);
    Ok((status, sink.bytes().to_vec(alloc)?))
}

// The first line of the frame, with two other digits at a place, and its other lines.
fn with_digits(alloc: Global, frame: &str, place: usize, digits: &str) -> Result<String, Fail> {
    let front = frame.get(..place).ok_or("no front")?;
    let back = frame.get(place + 2..).ok_or("no back")?;
    let mut changed = String::from_str(alloc, front)?;
    changed.push_str(digits)?;
    changed.push_str(back)?;
    Ok(changed)
}

#[test]
fn decodes_or_refuses(rt: HostRuntime) -> Result<(), Fail> {
    let alloc = rt.alloc();
    let mut longer = String::from_str(alloc, TEST_UNIT_READY)?;
    longer.push_str("eeeeeeeeeeeeeeeeeeeeeeeeeeeeeeeeeeeeeeee\n")?;
    let cut = TEST_UNIT_READY.get(..195).ok_or("no front")?;
    // Byte 13 is the fourth of the second line, behind 32 digits and an LF.
    let inner = with_digits(alloc, TEST_UNIT_READY, 33 + 6, "01")?;
    let both = with_digits(alloc, inner.as_str(), 8, "01")?;
    let function = with_digits(alloc, TEST_UNIT_READY, 6, "01")?;
    for (line, input, status, text) in [
        ("decode scsi", TEST_UNIT_READY, Status::Ok, LISTING),
        ("decode scsi", longer.as_str(), Status::Ok, LISTING),
        ("decode scsi", "", Status::Refused, "short need 12 have 0\n"),
        (
            "decode scsi",
            cut,
            Status::Refused,
            "short need 108 have 95\n",
        ),
        (
            "decode scsi",
            both.as_str(),
            Status::Refused,
            "field 04 Reserved\n",
        ),
        (
            "decode scsi",
            inner.as_str(),
            Status::Refused,
            "field 13 Reserved\n",
        ),
        (
            "decode scsi",
            function.as_str(),
            Status::Refused,
            "wrong kind 01 scsi\n",
        ),
        (
            "decode scsi",
            "0a0",
            Status::Refused,
            "refused line 1 hex\n",
        ),
        (
            "decode scsi",
            "0x0a",
            Status::Refused,
            "refused line 1 hex\n",
        ),
        ("decode", "", Status::Usage, USAGE_LINE),
        ("", "", Status::Usage, USAGE_LINE),
        ("gen -1", "", Status::Usage, USAGE_LINE),
    ] {
        for piece in [1, 7, 4096] {
            let (ended, written) = outcome(
                alloc,
                line,
                input.as_bytes(),
                piece,
                (NO_CALL, NO_CALL),
            )?;
            assert_eq!(rt; ended, status, "{line} {input}");
            assert_eq!(rt; written.as_slice(), text.as_bytes(), "{line} {input}");
        }
    }
    Ok(())
}

/// A SCSI IO reply with CHECK CONDITION, 0x12 sense bytes and one byte moved fewer than asked.
const CHECK_CONDITION: &str =
    "0a000a00000000000000000002014500 00000000000000001200000000000000 0100000000000000";

// The text with zeros behind it, so many bytes.
fn with_zeros(alloc: Global, text: &str, count: u32) -> Result<String, AllocError> {
    let mut longer = String::from_str(alloc, text)?;
    for _ in 0..count {
        longer.push_str("00")?;
    }
    Ok(longer)
}

// The digits with two others at a place.
fn changed(alloc: Global, place: usize, digits: &str) -> Result<String, Fail> {
    with_digits(alloc, CHECK_CONDITION, place, digits)
}

#[test]
fn refuses_in_order(rt: HostRuntime) -> Result<(), Fail> {
    let alloc = rt.alloc();
    let long_tail = changed(alloc, 4, "20")?;
    let short_list =
        "02000b07 00000000 00000000 00000000 00000000 1c000000 01000000 00000000000000";
    for (kind, start, zeros, text) in [
        ("default", "0000001a", 40, "unknown function 1a\n"),
        ("default", "0a00000100030000", 44, "wrong kind 01 default\n"),
        ("door", "0a00000100030000", 44, "wrong kind 01 door\n"),
        ("high", "0a00000100", 0, "short need 12 have 5\n"),
        ("high", "0a00000100030000", 43, "short need 52 have 51\n"),
        ("reply", "00", 18, "short need 20 have 19\n"),
        ("reply", long_tail.as_str(), 0, "short need 128 have 40\n"),
        ("reply", "0a0009000000", 34, "field 02 MsgLength\n"),
        ("reply", short_list, 1, "field 00 EventDataLength\n"),
        ("reply", short_list, 0, "short need 36 have 35\n"),
        (
            "reply",
            "03000b07 00000000 00000000 00000000 00000000 1c000000 01000000 0100490004000000 fd000300",
            0,
            "field 24 NumEntries\n",
        ),
        ("post", "02", 7, "field 00 RequestFlags\n"),
        ("post", "00", 6, "short need 8 have 7\n"),
        ("answer", "02", 7, "field 00 ReplyFlags\n"),
        ("page0", "000001", 53, "field 02 PageNumber\n"),
        ("page0", "000000", 52, "short need 56 have 55\n"),
    ] {
        let input = with_zeros(alloc, start, zeros)?;
        let mut line = String::from_str(alloc, "decode ")?;
        line.push_str(kind)?;
        let (ended, written) = outcome(
            alloc,
            line.as_str(),
            input.as_bytes(),
            7,
            (NO_CALL, NO_CALL),
        )?;
        assert_eq!(rt; ended, Status::Refused, "{kind} {start}");
        assert_eq!(rt; written.as_slice(), text.as_bytes(), "{kind} {start}");
    }
    Ok(())
}

/// Three pieces that the device fills: the offset and the first area, and a frame without the zeros
/// behind its elements.
const FRONT: &str = "1b 00020092 0010000000000000 18000032 0000000001000000 0000000000000000";

const FRAME: &str = "0000000001000000 00020012 0020000000000000 100000d3 0030000000000000";

// The texts one after the other, with zeros behind them, so many bytes.
fn joined(alloc: Global, front: &str, back: &str, zeros: u32) -> Result<String, AllocError> {
    let mut both = String::from_str(alloc, front)?;
    both.push_str(back)?;
    with_zeros(alloc, both.as_str(), zeros)
}

#[test]
fn decodes_scatter_lists(rt: HostRuntime) -> Result<(), Fail> {
    let alloc = rt.alloc();
    let three = joined(alloc, FRONT, FRAME, 104)?;
    // The chain element's flags, behind two words and an element of a piece.
    let flags = with_digits(alloc, three.as_str(), 35, "30")?;
    let stray = joined(alloc, joined(alloc, FRONT, FRAME, 103)?.as_str(), "01", 0)?;
    let extra = joined(alloc, three.as_str(), FRAME, 104)?;
    let cut = joined(alloc, three.as_str(), "00", 0)?;
    let nothing = with_zeros(alloc, "00 000000d3 ffffffffffffffff", 20)?;
    let outward = with_zeros(alloc, "00 ffffffd7 0100000000000080", 20)?;
    for (input, status, text) in [
        (
            three.as_str(),
            Status::Ok,
            "sgl 3 in\n0000000000001000 512\n0000000000002000 512\n0000000000003000 16\n",
        ),
        (nothing.as_str(), Status::Ok, "sgl 0 in\n"),
        (
            outward.as_str(),
            Status::Ok,
            "sgl 1 out\n8000000000000001 16777215\n",
        ),
        (flags.as_str(), Status::Refused, "sgl flags 0 1\n"),
        (stray.as_str(), Status::Refused, "sgl stray 1\n"),
        (FRONT, Status::Refused, "sgl missing 0\n"),
        (extra.as_str(), Status::Refused, "sgl extra\n"),
        ("", Status::Refused, "short need 33 have 0\n"),
        (cut.as_str(), Status::Refused, "short need 305 have 170\n"),
        ("0", Status::Refused, "refused line 1 hex\n"),
    ] {
        let (ended, written) = outcome(
            alloc,
            "decode sgl",
            input.as_bytes(),
            7,
            (NO_CALL, NO_CALL),
        )?;
        assert_eq!(rt; ended, status, "{input}");
        assert_eq!(rt; written.as_slice(), text.as_bytes(), "{input}");
    }
    Ok(())
}

#[test]
fn lists_parts(rt: HostRuntime) -> Result<(), Fail> {
    let alloc = rt.alloc();
    let long_tail = with_zeros(alloc, changed(alloc, 4, "20")?.as_str(), 88)?;
    let reset = with_zeros(alloc, "0a00000100030000", 44)?;
    let added =
        "04000b07 00000100 00000000 00000000 00000000 1c000000 01000000 0100490004000000 01000300 09000001";
    let other = "01000807 00000000 00000000 00000000 00000000 16000000 01000000 aabbccdd";
    // Lines that stand in the listing, one after another, with an LF before each.
    for (line, input, lines) in [
        (
            "decode reply",
            CHECK_CONDITION,
            "\n0c SCSIStatus 0x02\n0d SCSIState 0x01\n0e IOCStatus 0x0045\n",
        ),
        (
            "decode reply",
            CHECK_CONDITION,
            "\n18 SenseCount 0x00000012\n",
        ),
        (
            "gen 0",
            "",
            "\ndrain\nsubmit 1 5000c50000000005 write 4 1 01\n",
        ),
        ("decode reply", CHECK_CONDITION, "\n20 TaskTag 0x0001\n"),
        ("decode reply", CHECK_CONDITION, "\n28 Tail -\n"),
        ("decode reply", CHECK_CONDITION, "scsi-io-reply 40\n"),
        ("decode reply", long_tail.as_str(), "scsi-io-reply 128\n"),
        ("decode reply", long_tail.as_str(), "\n28 Tail 88*00\n"),
        (
            "decode high",
            reset.as_str(),
            "task-mgmt 52\n00 DevHandle 0x000a\n",
        ),
        (
            "decode reply",
            added,
            "event-reply 44\n00 EventDataLength 0x0004\n",
        ),
        (
            "decode reply",
            added,
            "\n24 NumEntries 0x01\n25 StartPhyNum 0x00\n26 ExpStatus 0x03\n27 PhysicalPort 0x00\n28 AttachedDevHandle 0x0009\n2a LinkRate 0x00\n2b PhyStatus 0x01\n2c Tail -\n",
        ),
        ("decode reply", other, "\n1c EventData aabbccdd\n"),
        (
            "decode post",
            "0600010100000000",
            "request-descriptor 8\n00 RequestFlags 0x06\n01 MSIxIndex 0x00\n02 SMID 0x0101\n04 LMID 0x0000\n06 DevHandle 0x0000\n",
        ),
        (
            "decode answer",
            "0100090000000100",
            "reply-descriptor 8\n00 ReplyFlags 0x01\n01 MSIxIndex 0x00\n02 SMID 0x0009\n04 ReplyFrameAddress 0x00010000\n",
        ),
        (
            "decode answer",
            "ffffffffffffffffee",
            "\n04 Reserved 0xffffffff\n",
        ),
    ] {
        let (ended, written) = outcome(alloc, line, input.as_bytes(), 7, (NO_CALL, NO_CALL))?;
        assert_eq!(rt; ended, Status::Ok, "{line} {input}");
        let text = std::str::from_utf8(&written).map_err(|_| "not text")?;
        assert!(rt; text.contains(lines), "{line} {input}: {text}");
    }
    Ok(())
}

#[test]
fn ends_at_faults(rt: HostRuntime) -> Result<(), Fail> {
    let alloc = rt.alloc();
    let input = TEST_UNIT_READY.as_bytes();
    // 223 bytes in pieces of 7 are 32 calls, and one more finds the end.
    for call in 0..33 {
        let (ended, written) = outcome(alloc, "decode scsi", input, 7, (call, NO_CALL))?;
        assert_eq!(rt; ended, Status::ReadFault, "call {call}");
        assert_eq!(rt;
            written.as_slice(),
            b"read fault\n".as_slice(),
            "call {call}"
        );
    }
    let pieces = LISTING.len().div_ceil(7);
    for call in 0..pieces {
        let failing = (NO_CALL, u32::try_from(call).map_err(|_| "too many")?);
        let (ended, written) = outcome(alloc, "decode scsi", input, 7, failing)?;
        assert_eq!(rt; ended, Status::WriteFault, "call {call}");
        let front = LISTING.as_bytes().get(..7 * call).ok_or("no front")?;
        assert_eq!(rt; written.as_slice(), front, "call {call}");
    }
    let (ended, written) = outcome(alloc, "decode", input, 7, (NO_CALL, 0))?;
    assert_eq!(rt; ended, Status::WriteFault);
    assert!(rt; written.is_empty());
    Ok(())
}

#[test]
fn keeps_the_limits(rt: HostRuntime) -> Result<(), Fail> {
    let alloc = rt.alloc();
    for (byte, count, status) in [
        (b' ', 33_554_432, Status::Refused),
        (b' ', 33_554_433, Status::TooLong),
        (b'\n', 20_000, Status::Refused),
        (b'\n', 20_001, Status::TooLong),
        (b'\r', 20_001, Status::Refused),
    ] {
        let words = words_of(alloc, "decode scsi")?;
        let mut source = NeverSource::new(vec![in alloc; byte; count]?, 65_536);
        let ended = run(alloc, &words, &mut source, &mut NeverSink::new());
        assert_eq!(rt; ended, status, "{count} of {byte}");
    }
    Ok(())
}
