//! Worked commands.
use crate::{
    Bytes, Cdb, Command, Direction, Disk, OutOfMemory, Room, ScsiResult, command_fits, length_of,
    moved, perform,
};
use std::alloc::Global;
use std::process::Abort;
use std::test::Fail;

const NO_SENSE: &[u8] = b"";

const INVALID_OPERATION_CODE: &[u8] =
    b"\x70\x00\x05\x00\x00\x00\x00\x0a\x00\x00\x00\x00\x20\x00\x00\x00\x00\x00";

const OUT_OF_RANGE: &[u8] =
    b"\x70\x00\x05\x00\x00\x00\x00\x0a\x00\x00\x00\x00\x21\x00\x00\x00\x00\x00";

const INVALID_FIELD: &[u8] =
    b"\x70\x00\x05\x00\x00\x00\x00\x0a\x00\x00\x00\x00\x24\x00\x00\x00\x00\x00";

const NO_LOGICAL_UNIT: &[u8] =
    b"\x70\x00\x05\x00\x00\x00\x00\x0a\x00\x00\x00\x00\x25\x00\x00\x00\x00\x00";

const INQUIRY_DATA: &[u8] = b"\x00\x00\x06\x02\x1f\x00\x00\x02MPTSIM  SIMULATED DISK  0001";

// A command of these parts.
fn command_of(
    rt: &impl Abort,
    alloc: Global,
    lun: u64,
    cdb: &[u8],
    len: u32,
    payload: &[u8],
) -> Result<Command, OutOfMemory> {
    assert!(rt; cdb.len() <= Cdb::MAX_LEN);
    assert!(rt; payload.len() <= Bytes::MAX_LEN);
    Ok(Command {
        lun,
        cdb: Cdb::new(cdb),
        len,
        payload: Bytes::new(payload.to_vec(alloc)?),
    })
}

// What the disk answers.
fn answer(alloc: Global, disk: &mut Disk, command: &Command) -> Result<ScsiResult, OutOfMemory> {
    let mut room = Room::new(alloc)?;
    Ok(perform(disk, command, &mut room))
}

#[test]
fn answers(rt: HostRuntime) -> Result<(), Fail> {
    let alloc = rt.alloc();
    let mut disk = Disk::new(alloc, 0x5000_c500_0000_0001, 16)?;
    let zeros = [0; 512];
    let cases: [(&str, u64, &[u8], u32, u8, &[u8], &[u8]); 15] = [
        ("no CDB", 0, b"", 0, 0, b"", NO_SENSE),
        (
            "inquiry",
            0,
            b"\x12\x00\x00\x00\x40\x00",
            64,
            0,
            INQUIRY_DATA,
            NO_SENSE,
        ),
        (
            "inquiry cut",
            0,
            b"\x12\x00\x00\x00\x05\x00",
            5,
            0,
            b"\x00\x00\x06\x02\x1f",
            NO_SENSE,
        ),
        (
            "inquiry page",
            0,
            b"\x12\x01\x00\x00\x40\x00",
            64,
            2,
            b"",
            INVALID_FIELD,
        ),
        (
            "capacity",
            0,
            b"\x25",
            8,
            0,
            b"\x00\x00\x00\x0f\x00\x00\x02\x00",
            NO_SENSE,
        ),
        (
            "read 15 1",
            0,
            b"\x28\x00\x00\x00\x00\x0f\x00\x00\x01\x00",
            512,
            0,
            &zeros,
            NO_SENSE,
        ),
        (
            "read 16 1",
            0,
            b"\x28\x00\x00\x00\x00\x10\x00\x00\x01\x00",
            512,
            2,
            b"",
            OUT_OF_RANGE,
        ),
        (
            "read 16 0",
            0,
            b"\x28\x00\x00\x00\x00\x10",
            0,
            0,
            b"",
            NO_SENSE,
        ),
        (
            "read 17 0",
            0,
            b"\x28\x00\x00\x00\x00\x11",
            0,
            2,
            b"",
            OUT_OF_RANGE,
        ),
        ("read 0 0", 0, b"\x28", 0, 0, b"", NO_SENSE),
        (
            "read16 last 1",
            0,
            b"\x88\x00\xff\xff\xff\xff\xff\xff\xff\xff\x00\x00\x00\x01",
            512,
            2,
            b"",
            OUT_OF_RANGE,
        ),
        (
            "write 16 1",
            0,
            b"\x2a\x00\x00\x00\x00\x10\x00\x00\x01",
            0,
            2,
            b"",
            OUT_OF_RANGE,
        ),
        (
            "write 15 1",
            0,
            b"\x2a\x00\x00\x00\x00\x0f\x00\x00\x01",
            0,
            2,
            b"",
            INVALID_FIELD,
        ),
        (
            "report luns",
            0,
            b"\xa0",
            16,
            2,
            b"",
            INVALID_OPERATION_CODE,
        ),
        ("unit 1", 1, b"\x00", 0, 2, b"", NO_LOGICAL_UNIT),
    ];
    for (name, lun, cdb, len, status, payload, sense) in cases {
        let command = command_of(&rt, alloc, lun, cdb, len, b"")?;
        let outcome = answer(alloc, &mut disk, &command)?;
        assert_eq!(rt; outcome.status, status, "{name}");
        assert_eq!(rt; outcome.payload.as_slice(), payload, "{name}");
        assert_eq!(rt; outcome.sense.as_slice(), sense, "{name}");
    }
    assert_eq!(rt; disk.address(), 0x5000_c500_0000_0001);
    assert_eq!(rt; disk.blocks(), 16);
    Ok(())
}

// Writes the blocks first - 1, first + 3, and so on, five in all, each filled with its number plus 1,
// and sums place times byte, where places begin at 1.
fn sum_after_writes(rt: &impl Abort, alloc: Global, first: u8) -> Result<u64, OutOfMemory> {
    let mut disk = Disk::new(alloc, 0x5000_c500_0000_0000, 64)?;
    for turn in 0..5u8 {
        let fill = first.wrapping_add(turn.wrapping_mul(4));
        let cdb = [0x2a, 0, 0, 0, 0, fill.wrapping_sub(1), 0, 0, 1, 0];
        let command = command_of(rt, alloc, 0, &cdb, 512, &[fill; 512])?;
        let outcome = answer(alloc, &mut disk, &command)?;
        assert_eq!(rt; outcome.status, 0);
        assert_eq!(rt; moved(&command, &outcome), 512);
        let cdb = [0x28, 0, 0, 0, 0, fill.wrapping_sub(1), 0, 0, 1, 0];
        let command = command_of(rt, alloc, 0, &cdb, 512, b"")?;
        let outcome = answer(alloc, &mut disk, &command)?;
        assert_eq!(rt; outcome.payload.as_slice(), [fill; 512].as_slice());
    }
    let mut sum = 0u64;
    for (i, byte) in disk.bytes().iter().enumerate() {
        let place = (i as u64).wrapping_add(1);
        sum = sum.wrapping_add(place.wrapping_mul(u64::from(*byte)));
    }
    Ok(sum)
}

#[test]
fn sums_after_writes(rt: HostRuntime) -> Result<(), Fail> {
    let sums = [
        (1, 142224640),
        (2, 166474240),
        (3, 193345280),
        (4, 222837760),
    ];
    for (first, sum) in sums {
        assert_eq!(rt; sum_after_writes(&rt, rt.alloc(), first)?, sum);
    }
    Ok(())
}

#[test]
fn commands(rt: HostRuntime) -> Result<(), Fail> {
    let alloc = rt.alloc();
    let read: &[u8] = b"\x28\x00\x00\x00\x00\x00\x00\x00\x01\x00";
    let write: &[u8] = b"\x8a\x00\x00\x00\x00\x00\x00\x00\x00\x00\x00\x00\x00\x01\x00\x00";
    let block = [7; 512];
    let cases: [(&[u8], u32, &[u8], Option<u64>, bool, Direction); 8] = [
        (b"", 0, b"", Some(0), false, Direction::None),
        (
            b"\x00\x00\x00\x00\x00\x00",
            0,
            b"",
            Some(0),
            true,
            Direction::None,
        ),
        (
            b"\x12\x00\x00\x01\x02\x00",
            258,
            b"",
            Some(258),
            true,
            Direction::Read,
        ),
        (read, 512, b"", Some(512), true, Direction::Read),
        (read, 511, b"", Some(512), false, Direction::Read),
        (write, 512, &block, Some(512), true, Direction::Write),
        (write, 512, b"", Some(512), false, Direction::Write),
        (b"\xa0", 4096, b"", None, true, Direction::Read),
    ];
    for (cdb, len, payload, named, fits, direction) in cases {
        let first = command_of(&rt, alloc, 0, cdb, len, payload)?;
        let command = first.copy(alloc)?;
        assert_eq!(rt; length_of(&command.cdb), named);
        assert_eq!(rt; command_fits(&command), fits);
        assert_eq!(rt; command.direction(), direction);
    }
    let mut room = Room::new(alloc)?;
    room.refill()?;
    assert!(rt; room.is_full());
    Ok(())
}
