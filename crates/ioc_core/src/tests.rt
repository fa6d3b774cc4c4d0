//! Worked lists of moves, with values from the interface's headers.
use crate::{Ioc, IocMove, IocSaid, IocTalk, OutOfMemory, play};
use mpt_messages::{HostAsk, host_frame};
use mpt_trace::{Back, Down, Up};
use scsi_disk::Bytes;
use std::alloc::Global;
use std::test::Fail;

const DOORBELL: u16 = 0x00;

const WRITE_SEQUENCE: u16 = 0x04;

const HOST_DIAGNOSTIC: u16 = 0x08;

const HOST_INTERRUPT_STATUS: u16 = 0x30;

// What a new controller with an expander of one phy says.
fn talk_of(alloc: Global, moves: &[IocMove]) -> Result<IocTalk, OutOfMemory> {
    let phys = [1].to_vec(alloc)?;
    let mut ioc = Ioc::new(alloc, phys)?;
    play(&mut ioc, moves)
}

fn write(reg: u16, value: u32) -> IocMove {
    IocMove::Down(Down::Write { reg, value })
}

// The moves that make a new controller operational: IOC Init for one reply queue, dword by dword; and
// reply frame 0 is returned.
pub(crate) fn bring_up(alloc: Global) -> Result<Vec<IocMove>, OutOfMemory> {
    let mut frame = [0; 128];
    host_frame(&HostAsk::Init { queues: 1 }, &mut frame);
    let mut moves = Vec::new(alloc);
    moves.push(write(DOORBELL, 0x4212_0000))?;
    moves.push(write(HOST_INTERRUPT_STATUS, 0))?;
    for dword in 0..18 {
        let at = 4 * dword;
        let bytes = [frame[at], frame[at + 1], frame[at + 2], frame[at + 3]];
        moves.push(write(DOORBELL, u32::from_le_bytes(bytes)))?;
    }
    for _ in 0..10 {
        moves.push(write(HOST_INTERRUPT_STATUS, 0))?;
    }
    moves.push(IocMove::Down(Down::Return {
        address: 0x0001_0000,
        index: 0,
    }))?;
    Ok(moves)
}

// What a new controller says after these moves, when a post of this frame is taken and processed.
fn answers(
    alloc: Global,
    mut moves: Vec<IocMove>,
    descriptor: u64,
    frame: [u8; 128],
    step: IocMove,
) -> Result<IocTalk, OutOfMemory> {
    moves.push(IocMove::Down(Down::Post {
        descriptor,
        frame,
        payload: Bytes::empty(alloc),
    }))?;
    moves.push(step)?;
    moves.push(IocMove::PutUp)?;
    talk_of(alloc, &moves)
}

// Whether a value is said at this place.
fn is_value(said: &(usize, IocSaid), at: usize, value: u32) -> bool {
    match said {
        (place, IocSaid::Up(Up::Value(told))) => *place == at && *told == value,
        _ => false,
    }
}

// Whether it is a reply whose frame has this IOCStatus, and this byte 04.
fn is_reply(said: &(usize, IocSaid), status: u16, byte: u8) -> bool {
    match said {
        (
            _,
            IocSaid::Up(
                Up::Reply {
                    frame: Some(frame),
                    ..
                },
            ),
        ) => u16::from_le_bytes([frame[14], frame[15]]) == status && frame[4] == byte,
        _ => false,
    }
}

// Whether a wrong write to the Doorbell is told as this fault.
fn faults(alloc: Global, written: u32, fault: u32) -> Result<bool, OutOfMemory> {
    let moves = [
        write(DOORBELL, written),
        IocMove::Down(Down::Read { reg: DOORBELL }),
        IocMove::PutUp,
    ];
    let talk = talk_of(alloc, &moves)?;
    Ok(talk.as_slice().iter().all(|said| is_value(said, 2, fault)) && !talk.as_slice().is_empty())
}

// Whether a command for a handle that is no disk's is answered so.
fn refuses_command(alloc: Global) -> Result<bool, OutOfMemory> {
    let ask = HostAsk::ScsiIo {
        smid: 1,
        handle: 10,
        lun: 0,
        cdb: [0; 16],
        cdb_len: 6,
        len: 0,
        write: false,
    };
    let mut frame = [0; 128];
    host_frame(&ask, &mut frame);
    let moves = bring_up(alloc)?;
    let talk = answers(alloc, moves, 0x000a_0000_0001_0000, frame, IocMove::Normal)?;
    Ok(talk.as_slice().iter().any(|said| is_reply(said, 0x0042, 0)))
}

// Whether the removal of a disk that is there is answered so.
fn refuses_removal(alloc: Global) -> Result<bool, OutOfMemory> {
    let mut frame = [0; 128];
    host_frame(&HostAsk::Remove { handle: 9 }, &mut frame);
    let mut moves = bring_up(alloc)?;
    moves.push(IocMove::Back(Back::Plugged {
        address: 0x5000_c500_0000_0001,
        plug: 1,
        expander: 0,
        phy: 0,
    }))?;
    let talk = answers(alloc, moves, 0x0000_0000_0109_0008, frame, IocMove::Normal)?;
    Ok(talk.as_slice().iter().any(|said| is_reply(said, 0x0008, 9)))
}

// Adds the moves that bring back a controller that wasn't reset yet: the keys, the reset, its link, and the Doorbell is
// read.
fn bring_back(moves: &mut Vec<IocMove>) -> Result<(), OutOfMemory> {
    for key in [0x0, 0xf, 0x4, 0xb, 0x2, 0x7, 0xd] {
        moves.push(write(WRITE_SEQUENCE, key))?;
    }
    moves.push(write(HOST_DIAGNOSTIC, 0x84))?;
    moves.push(IocMove::PutOut)?;
    moves.push(IocMove::Back(Back::Linked { generation: 1 }))?;
    moves.push(write(HOST_DIAGNOSTIC, 0x80))?;
    moves.push(IocMove::Down(Down::Read { reg: DOORBELL }))?;
    moves.push(IocMove::PutUp)?;
    moves.push(IocMove::PutUp)?;
    Ok(())
}

// Whether a controller is READY again after this write to the Doorbell.
fn comes_back(alloc: Global, written: u32) -> Result<bool, OutOfMemory> {
    let mut moves = Vec::new(alloc);
    moves.push(write(DOORBELL, written))?;
    moves.push(IocMove::Down(Down::Read { reg: DOORBELL }))?;
    moves.push(IocMove::PutUp)?;
    bring_back(&mut moves)?;
    let talk = talk_of(alloc, &moves)?;
    Ok(match talk.as_slice().last() {
        Some(said) => is_value(said, 15, 0x1000_0000),
        None => false,
    })
}

// Whether task management of a type that isn't carried out is answered so.
fn refuses_task(alloc: Global, task_type: u8) -> Result<bool, OutOfMemory> {
    let mut frame = [0; 128];
    frame[3] = 0x01;
    frame[5] = task_type;
    let moves = bring_up(alloc)?;
    let talk = answers(alloc, moves, 0x0000_0000_0101_0006, frame, IocMove::High)?;
    Ok(
        talk.as_slice()
            .iter()
            .any(|said| is_reply(said, 0x004a, 0x04)),
    )
}

#[test]
fn wrong_writes_are_faults(rt: HostRuntime) -> Result<(), Fail> {
    assert!(rt; faults(rt.alloc(), 0x4200_0000, 0x4000_0001)?);
    assert!(rt; faults(rt.alloc(), 0x5000_0000, 0x4000_0002)?);
    Ok(())
}

#[test]
fn command_for_no_disk_is_refused(rt: HostRuntime) -> Result<(), Fail> {
    assert!(rt; refuses_command(rt.alloc())?);
    Ok(())
}

#[test]
fn disk_that_is_there_is_not_removed(rt: HostRuntime) -> Result<(), Fail> {
    assert!(rt; refuses_removal(rt.alloc())?);
    Ok(())
}

// From two faults, and from a handshake whose message doesn't come.
#[test]
fn controller_comes_back(rt: HostRuntime) -> Result<(), Fail> {
    assert!(rt; comes_back(rt.alloc(), 0x4200_0000)?);
    assert!(rt; comes_back(rt.alloc(), 0x5000_0000)?);
    assert!(rt; comes_back(rt.alloc(), 0x4212_0000)?);
    Ok(())
}

#[test]
fn unknown_task_types_are_refused(rt: HostRuntime) -> Result<(), Fail> {
    assert!(rt; refuses_task(rt.alloc(), 0x05)?);
    assert!(rt; refuses_task(rt.alloc(), 0x07)?);
    Ok(())
}
