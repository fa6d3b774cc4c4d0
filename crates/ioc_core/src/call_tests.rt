//! Worked calls, with as many posts as there are identifiers.
use crate::tests::bring_up;
use crate::{Ioc, OutOfMemory, play};
use mpt_messages::{HostAsk, host_frame};
use mpt_trace::{Down, Smid};
use scsi_disk::Bytes;
use std::alloc::Global;
use std::test::Fail;

// An operational controller.
fn operational(alloc: Global) -> Result<Ioc, OutOfMemory> {
    let mut ioc = Ioc::new(alloc, Vec::new(alloc))?;
    let moves = bring_up(alloc)?;
    play(&mut ioc, &moves)?;
    Ok(ioc)
}

// TEST UNIT READY for a handle.
fn ready() -> [u8; 128] {
    let mut frame = [0; 128];
    host_frame(
        &HostAsk::ScsiIo {
            smid: 1,
            handle: 10,
            lun: 0,
            cdb: [0; 16],
            cdb_len: 6,
            len: 0,
            write: false,
        },
        &mut frame,
    );
    frame
}

// A target reset of a handle.
fn target_reset() -> [u8; 128] {
    let mut frame = [0; 128];
    host_frame(
        &HostAsk::Task {
            handle: 10,
            task_type: 3,
            task_mid: 0,
        },
        &mut frame,
    );
    frame
}

// The removal of a handle.
fn removal() -> [u8; 128] {
    let mut frame = [0; 128];
    host_frame(&HostAsk::Remove { handle: 10 }, &mut frame);
    frame
}

// Whether a post of the kind, the identifier and the frame is taken.
fn takes(alloc: Global, ioc: &mut Ioc, kind: u8, smid: Smid, frame: [u8; 128]) -> bool {
    ioc.take_down(Down::Post {
        descriptor: u64::from(kind) + 0x1_0000 * u64::from(smid),
        frame,
        payload: Bytes::empty(alloc),
    })
    .is_ok()
}

// Whether posts of all identifiers from the first to before the end are taken.
fn takes_all(
    alloc: Global,
    ioc: &mut Ioc,
    kind: u8,
    first: Smid,
    end: Smid,
    frame: [u8; 128],
) -> bool {
    for smid in first..end {
        if !takes(alloc, ioc, kind, smid, frame) {
            return false;
        }
    }
    true
}

// Whether the normal queue has exactly this many posts, which are processed.
fn works(ioc: &mut Ioc, count: u32) -> Result<bool, OutOfMemory> {
    for _ in 0..count {
        if !ioc.step_normal()? {
            return Ok(false);
        }
    }
    Ok(!ioc.step_normal()?)
}

// A descriptor's flags: of a SCSI IO 0x00, of high priority 0x06, else 0x08.
fn takes_one_of_each(alloc: Global) -> Result<bool, OutOfMemory> {
    let mut ioc = operational(alloc)?;
    let commands = takes_all(alloc, &mut ioc, 0x00, 1, 257, ready());
    let tasks = takes_all(alloc, &mut ioc, 0x06, 257, 265, target_reset());
    let others = takes_all(alloc, &mut ioc, 0x08, 265, 281, removal());
    Ok(commands && tasks && others && works(&mut ioc, 272)?)
}

#[test]
fn every_identifier_is_posted_at_once(rt: HostRuntime) -> Result<(), Fail> {
    assert!(rt; takes_one_of_each(rt.alloc())?);
    Ok(())
}
