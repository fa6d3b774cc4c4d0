//! Worked lists of moves.
use crate::{Host, HostMove, HostSaid, OutOfMemory, Why, play};
use mpt_trace::{Address, Down, Entry, Input, Refusal, RefusedCall, Up};
use scsi_disk::Bytes;
use std::alloc::Global;
use std::test::Fail;

const A: Address = 0x5000_c500_0000_0001;

// What a new host says, and at which moves.
fn said(alloc: Global, moves: &[HostMove]) -> Result<Vec<(usize, HostSaid)>, OutOfMemory> {
    let mut host = Host::new(alloc)?;
    play(&mut host, moves)?.into_vec(alloc)
}

// The success reply of identifier 1.
fn first_success(alloc: Global) -> Up {
    Up::Reply {
        descriptor: 0x0000_0001_0001_0000,
        frame: None,
        page: Bytes::empty(alloc),
        sense: Bytes::empty(alloc),
    }
}

// Whether a host finds at this place that an identifier isn't open.
fn is_not_open(said: &(usize, HostSaid), at: usize, smid: u16) -> bool {
    match said {
        (place, HostSaid::Strange(Why::NotOpen(of))) => *place == at && *of == smid,
        _ => false,
    }
}

// Whether a host reads the Doorbell at this place.
fn reads_doorbell(said: &(usize, HostSaid), at: usize) -> bool {
    match said {
        (place, HostSaid::Down(Down::Read { reg })) => *place == at && *reg == 0,
        _ => false,
    }
}

// Whether a host refuses at this place to reset a disk, since the controller isn't operational.
fn refuses_reset(said: &(usize, HostSaid), at: usize) -> bool {
    match said {
        (
            place,
            HostSaid::Told(
                Entry::Refuse {
                    call: RefusedCall::TargetReset(_),
                    cause: Refusal::NotOperational,
                },
            ),
        ) => *place == at,
        _ => false,
    }
}

#[test]
fn reply_to_nothing_is_strange(rt: HostRuntime) -> Result<(), Fail> {
    let moves = [HostMove::Up(first_success(rt.alloc()))];
    let said = said(rt.alloc(), &moves)?;
    assert_eq!(rt; said.len(), 1);
    assert!(rt; said.iter().all(|pair| is_not_open(pair, 0, 1)));
    Ok(())
}

#[test]
fn start_is_put_on_the_lane(rt: HostRuntime) -> Result<(), Fail> {
    let moves = [
        HostMove::PutDown,
        HostMove::UpOn(1, Up::Calm),
        HostMove::Input(Input::Unplug { address: A }),
        HostMove::Input(Input::Start),
        HostMove::PutDown,
        HostMove::PutDown,
    ];
    let said = said(rt.alloc(), &moves)?;
    assert_eq!(rt; said.len(), 1);
    assert!(rt; said.iter().all(|pair| reads_doorbell(pair, 4)));
    Ok(())
}

#[test]
fn refusal_is_told(rt: HostRuntime) -> Result<(), Fail> {
    let moves = [HostMove::Input(Input::TargetReset { address: A })];
    let said = said(rt.alloc(), &moves)?;
    assert_eq!(rt; said.len(), 1);
    assert!(rt; said.iter().all(|pair| refuses_reset(pair, 0)));
    Ok(())
}
