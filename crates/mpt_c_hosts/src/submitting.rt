//! Commands that C submits.
ghost use Rattle.std.specs.Prelude.{◌≡◌, IfErr, IfOk, Some};
ghost use Rattle.mpt_rules.specs.Host.Takes.{host_submits};
ghost use Rattle.mpt_c_hosts.specs.Asking.{BeginsAs};
ghost use Rattle.mpt_c_hosts.specs.Reading.{IsUnread};
ghost use Rattle.mpt_c_hosts.specs.Submitting.{Submits, command_of};

use crate::asking::refuse;
use host_core::Host;
use mpt_c_messages::CallCode;
use scsi_disk::{Bytes, Cdb, Command};
use std::alloc::Global;
use std::mem::size_of;

/// What stands before a command's CDB and its data (mpt.h, `mpt_submission`).
#[repr(C)]
#[derive(Clone, Copy, Debug, PartialEq, Eq)]
pub struct SubmitHead {
    /// The disk's SAS address.
    pub address: u64,
    /// The logical unit number, in the eight bytes of a SCSI IO request.
    pub lun: u64,
    /// The number under which the command is submitted.
    pub number: u32,
    /// The number of bytes that are moved at most.
    pub length: u32,
}

// C has the same layout: mpt.h asserts it too.
const _: () = prove!(size_of::<SubmitHead>() == 24);

/// Submits a command, and answers its identifier. NoSuch where its CDB has more than 32 bytes, or its data more than
/// 4,096.
pub fn submit(
    alloc: Global,
    host: &mut Host,
    head: &SubmitHead,
    cdb: &[u8],
    bytes: &[u8],
    smid: &mut u16,
    cause: &mut u32,
) -> CallCode
    ensures { Submits host.old host.new head.now (command_of head.now cdb.now bytes.now) smid.old smid.new cause.old cause.new result }
{
    match read_command(alloc, head, cdb, bytes) {
        Err(code) => code,
        Ok(command) => give(host, head, command, smid, cause),
    }
}

// The host is asked to take a command.
fn give(
    host: &mut Host,
    head: &SubmitHead,
    command: Command,
    smid: &mut u16,
    cause: &mut u32,
) -> CallCode
    ensures { BeginsAs host.old host.new smid.old smid.new cause.old cause.new (host_submits host.old.host head.now.number head.now.address command) result }
{
    match host.submit(head.number, head.address, command) {
        Ok(given) => {
            *smid = given;
            CallCode::Ok
        }
        Err(fault) => refuse(fault, cause),
    }
}

// The command that stands for what C hands over.
fn read_command(
    alloc: Global,
    head: &SubmitHead,
    cdb: &[u8],
    bytes: &[u8],
) -> Result<Command, CallCode>
    ensures read { IfOk result (λ command. command_of head.now cdb.now bytes.now ≡ Some command) }
    ensures refused { IfErr result (IsUnread (command_of head.now cdb.now bytes.now)) }
{
    if cdb.len() > Cdb::MAX_LEN || bytes.len() > Bytes::MAX_LEN {
        return Err(CallCode::NoSuch);
    }
    let Ok(payload) = bytes.to_vec(alloc) else {
        return Err(CallCode::NoMemory);
    };
    Ok(Command {
        lun: head.lun,
        cdb: Cdb::new(cdb),
        len: head.length,
        payload: Bytes::new(payload),
    })
}
