//! What the host tells.
ghost use Rattle.std.specs.Prelude.{◌≡◌, ◌≢◌, ◌≤◌, length};
ghost use Rattle.mpt_c_hosts.specs.Told.{FillsTold, Tells, data_over, result_of, sense_over, told_abort, told_answer, told_head, told_kind, told_of_disk, told_target};

use host_core::Host;
use mpt_c_messages::{CallCode, put_front};
use mpt_trace::{AbortOutcome, Entry, Outcome, TargetOutcome};
use scsi_disk::Bytes;
use std::mem::size_of;

/// What stands before the data of an entry that the host tells (mpt.h, `mpt_told_head`). What the entry doesn't have is 0.
#[repr(C)]
#[derive(Clone, Copy, Debug, PartialEq, Eq)]
pub struct ToldHead {
    /// A disk's SAS address.
    pub address: u64,
    /// Which entry: 1 the controller is up, 2 a disk is ready, 3 it is lost, 4 a submission is accepted, 5 it is answered,
    /// 6 an abort ended, 7 a target reset ended, 8 a reset is done; 0 no host's.
    pub kind: u32,
    /// The submission's number.
    pub number: u32,
    /// The disk's handle, or the identifier of the submission's request.
    pub identifier: u32,
    /// How it ended: 1 done, 2 the disk had gone, 3 it was terminated, 4 a reset of the controller ended it, 5 the abort
    /// stopped it, 6 the abort didn't find it.
    pub outcome: u32,
    /// How many commands a target reset terminated.
    pub count: u32,
    /// The SCSI status.
    pub status: u32,
    /// How many bytes of data there are.
    pub data_length: u32,
    /// How many bytes of sense data there are.
    pub sense_length: u32,
}

// C has the same layout: mpt.h asserts it too.
const _: () = prove!(size_of::<ToldHead>() == 40);

const DONE: u32 = 1;

const GONE: u32 = 2;

const TERMINATED: u32 = 3;

const RESET: u32 = 4;

const STOPPED: u32 = 5;

const NOT_FOUND: u32 = 6;

/// Takes the first entry that the host told and that wasn't taken. Nothing where there is none. ShortBuffer exactly where
/// the data or the sense data has no room for 4,096 bytes.
pub fn tell(host: &mut Host, head: &mut ToldHead, bytes: &mut [u8], sense: &mut [u8]) -> CallCode
    ensures told { Tells host.old host.new (FillsTold head.old head.new bytes.old bytes.new sense.old sense.new) result }
    ensures room { 4096 ≤ length bytes.old → 4096 ≤ length sense.old → result ≢ CallCode.ShortBuffer }
{
    if bytes.len() < Bytes::MAX_LEN || sense.len() < Bytes::MAX_LEN {
        return CallCode::ShortBuffer;
    }
    match host.answers() {
        None => CallCode::Nothing,
        Some(entry) => {
            *head = ToldHead::of(&entry);
            put_result(&entry, bytes, sense);
            CallCode::Ok
        }
    }
}

// Writes what the disk answered, if it did.
fn put_result(entry: &Entry, bytes: &mut [u8], sense: &mut [u8])
    requires bytes { 4096 ≤ length bytes.old }
    requires sense { 4096 ≤ length sense.old }
    ensures bytes { bytes.new ≡ data_over (result_of entry.now) bytes.old }
    ensures sense { sense.new ≡ sense_over (result_of entry.now) sense.old }
{
    if let Entry::Answer {
        outcome: Outcome::Done(result),
        ..
    } = entry
    {
        put_front(result.payload.as_slice(), bytes);
        put_front(result.sense.as_slice(), sense);
    }
}

impl ToldHead {
    // What stands before the entry's data.
    fn of(entry: &Entry) -> ToldHead
        ensures { result ≡ told_head entry.now }
    {
        match entry {
            Entry::HostUp => ToldHead::with_kind(1),
            Entry::Ready { address, handle } => ToldHead::of_disk(2, *address, *handle),
            Entry::Lost { address, handle } => ToldHead::of_disk(3, *address, *handle),
            Entry::Accept { n, address, smid } => ToldHead {
                number: *n,
                ..ToldHead::of_disk(4, *address, *smid)
            },
            Entry::Answer { n, outcome } => ToldHead::of_answer(*n, outcome),
            Entry::AbortEnd { n, outcome } => ToldHead::of_abort(*n, *outcome),
            Entry::TargetEnd { address, outcome } => ToldHead::of_target(*address, *outcome),
            Entry::ResetDone => ToldHead::with_kind(8),
            _ => ToldHead::with_kind(0),
        }
    }

    // An entry of this kind, with nothing else to it.
    fn with_kind(kind: u32) -> ToldHead
        ensures { result ≡ told_kind kind }
    {
        ToldHead {
            address: 0,
            kind,
            number: 0,
            identifier: 0,
            outcome: 0,
            count: 0,
            status: 0,
            data_length: 0,
            sense_length: 0,
        }
    }

    // An entry of a disk, under its handle.
    fn of_disk(kind: u32, address: u64, handle: u16) -> ToldHead
        ensures { result ≡ told_of_disk kind address handle }
    {
        ToldHead {
            address,
            identifier: u32::from(handle),
            ..ToldHead::with_kind(kind)
        }
    }

    // A submission's answer.
    fn of_answer(number: u32, ended: &Outcome) -> ToldHead
        ensures { result ≡ told_answer number ended.now }
    {
        let head = ToldHead {
            number,
            ..ToldHead::with_kind(5)
        };
        match ended {
            Outcome::Done(result) => ToldHead {
                outcome: DONE,
                status: u32::from(result.status),
                data_length: result.payload.len() as u32,
                sense_length: result.sense.len() as u32,
                ..head
            },
            Outcome::Gone => ToldHead {
                outcome: GONE,
                ..head
            },
            Outcome::Terminated => ToldHead {
                outcome: TERMINATED,
                ..head
            },
            Outcome::Reset => ToldHead {
                outcome: RESET,
                ..head
            },
        }
    }

    // The end of an abort.
    fn of_abort(number: u32, ended: AbortOutcome) -> ToldHead
        ensures { result ≡ told_abort number ended }
    {
        let outcome = match ended {
            AbortOutcome::Stopped => STOPPED,
            AbortOutcome::NotFound => NOT_FOUND,
            AbortOutcome::Reset => RESET,
        };
        ToldHead {
            number,
            outcome,
            ..ToldHead::with_kind(6)
        }
    }

    // The end of a target reset.
    fn of_target(address: u64, ended: TargetOutcome) -> ToldHead
        ensures { result ≡ told_target address ended }
    {
        let (outcome, count) = match ended {
            TargetOutcome::Done(count) => (DONE, count),
            TargetOutcome::Reset => (RESET, 0),
        };
        ToldHead {
            address,
            outcome,
            count,
            ..ToldHead::with_kind(7)
        }
    }
}
