//! Worked traces and their summaries.
use crate::{DiskSpec, Entry, OutOfMemory, PartsSummary, Summary, summary_of_trace};
use mpt_trace::{Address, CommandForm, Input, Outcome, Refusal, RefusedCall, summary_text};
use scsi_disk::{Bytes, ScsiResult};
use std::alloc::Global;
use std::test::Fail;

const A: Address = 0x5000_c500_0000_0001;

const B: Address = 0x5000_c500_0000_0002;

// A disk is plugged at a phy of expander 0.
fn plug(address: Address, phy: u8) -> Entry {
    Entry::Given(Input::Plug {
        address,
        expander: 0,
        phy,
    })
}

// A block of A is to be written with one byte over and over.
fn submit_write(n: u32, lba: u32, fill: u8) -> Entry {
    Entry::Given(Input::Submit {
        n,
        address: A,
        form: CommandForm::Write {
            lba,
            blocks: 1,
            fill,
        },
    })
}

fn accept(n: u32, smid: u16) -> Entry {
    Entry::Accept {
        n,
        address: A,
        smid,
    }
}

fn answer(n: u32, outcome: Outcome) -> Entry {
    Entry::Answer { n, outcome }
}

// What a disk answers to a WRITE.
fn good(alloc: Global) -> Outcome {
    Outcome::Done(ScsiResult {
        status: 0,
        payload: Bytes::empty(alloc),
        sense: Bytes::empty(alloc),
    })
}

// A is plugged, and the host brings the controller up and calls A ready.
fn brought_up(alloc: Global) -> Result<Vec<Entry>, OutOfMemory> {
    let mut entries = Vec::new(alloc);
    entries.push(plug(A, 0))?;
    entries.push(Entry::Given(Input::Start))?;
    entries.push(Entry::Bind {
        handle: 9,
        address: A,
        plug: 1,
    })?;
    entries.push(Entry::HostUp)?;
    entries.push(Entry::Ready {
        address: A,
        handle: 9,
    })?;
    Ok(entries)
}

// Two blocks are written. The plug of B is refused, as the fabric's next entry says.
fn writes(alloc: Global) -> Result<Vec<Entry>, OutOfMemory> {
    let mut entries = brought_up(alloc)?;
    entries.push(plug(B, 0))?;
    entries.push(submit_write(1, 0, 0x11))?;
    entries.push(accept(1, 1))?;
    entries.push(Entry::Refuse {
        call: RefusedCall::Plug(B),
        cause: Refusal::Occupied,
    })?;
    entries.push(submit_write(2, 1, 0x22))?;
    entries.push(accept(2, 2))?;
    entries.push(Entry::Run { address: A, tag: 1 })?;
    entries.push(Entry::Run { address: A, tag: 2 })?;
    entries.push(answer(1, good(alloc)))?;
    entries.push(answer(2, good(alloc)))?;
    Ok(entries)
}

// A reset ends a request that is open, and A is unplugged before it is done.
fn reset(alloc: Global) -> Result<Vec<Entry>, OutOfMemory> {
    let mut entries = brought_up(alloc)?;
    entries.push(submit_write(1, 0, 0x11))?;
    entries.push(accept(1, 1))?;
    entries.push(Entry::Given(Input::Reset))?;
    entries.push(Entry::Given(Input::Unplug { address: A }))?;
    entries.push(answer(1, Outcome::Reset))?;
    entries.push(Entry::ResetDone)?;
    Ok(entries)
}

// A submission and a second start are refused, and one submission stays open.
fn refusals(alloc: Global) -> Result<Vec<Entry>, OutOfMemory> {
    let mut entries = brought_up(alloc)?;
    entries.push(Entry::Given(Input::Start))?;
    entries.push(Entry::Refuse {
        call: RefusedCall::Start,
        cause: Refusal::AlreadyStarted,
    })?;
    entries.push(submit_write(1, 0, 0x11))?;
    entries.push(accept(1, 1))?;
    entries.push(submit_write(1, 1, 0x11))?;
    entries.push(Entry::RefuseSubmit {
        n: 1,
        cause: Refusal::NumberUsed,
    })?;
    Ok(entries)
}

// The summary of a trace with A and B, where one handle waits and nothing is on its way.
fn summary(alloc: Global, entries: &[Entry]) -> Result<Summary, OutOfMemory> {
    let disks = [
        DiskSpec {
            address: A,
            blocks: 16,
        },
        DiskSpec {
            address: B,
            blocks: 1,
        },
    ];
    let parts = PartsSummary {
        reading: 0,
        waiting: 1,
        resetting: 0,
        removing: 0,
        quiet: true,
    };
    summary_of_trace(alloc, &disks, entries, parts)
}

#[test]
fn summaries(rt: HostRuntime) -> Result<(), Fail> {
    let alloc = rt.alloc();
    let table: [(Vec<Entry>, &[u8]); 3] = [
        (
            writes(alloc)?,
            b"disk 5000c50000000001 at 0 0 sum 15610624
disk 5000c50000000002 out sum 0
answers done 2 gone 0 terminated 0 reset 0 refused 0 open 0
phases reading 0 ready 1 waiting 1 resetting 0 removing 0
state up quiet yes
",
        ),
        (
            reset(alloc)?,
            b"disk 5000c50000000001 out sum 0
disk 5000c50000000002 out sum 0
answers done 0 gone 0 terminated 0 reset 1 refused 0 open 0
phases reading 0 ready 0 waiting 1 resetting 0 removing 0
state starting quiet yes
",
        ),
        (
            refusals(alloc)?,
            b"disk 5000c50000000001 at 0 0 sum 0
disk 5000c50000000002 out sum 0
answers done 0 gone 0 terminated 0 reset 0 refused 1 open 1
phases reading 0 ready 1 waiting 1 resetting 0 removing 0
state up quiet yes
",
        ),
    ];
    for (entries, wanted) in &table {
        let text = summary_text(alloc, &summary(alloc, entries)?)?;
        assert_eq!(rt; text.as_bytes(), *wanted);
    }
    Ok(())
}
