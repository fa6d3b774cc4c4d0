//! The fields of reply frames.
ghost use Rattle.std.specs.Prelude.{◌≡◌, ◌≤◌, length, replicate, unwrap_or};
ghost use Rattle.mpt_wire.specs.Messages.Fields.{event_context_in, event_in, function_in, scsi_status_in, termination_count_in};
ghost use Rattle.mpt_rules.specs.Host.Replies.{reply_status};

use crate::number::{u16_at, u32_at};
use mpt_rules::IOC_STATUS_MASK;

// Where a reply has its Function and its IOCStatus (mpi2.h, MPI2_DEFAULT_REPLY).
const FUNCTION: usize = 0x03;

const IOC_STATUS: usize = 0x0e;

// Where a SCSI IO's reply has its SCSIStatus (mpi2_init.h, MPI2_SCSI_IO_REPLY).
const SCSI_STATUS: usize = 0x0c;

// Where a task management reply has its TerminationCount (mpi2_init.h, MPI2_SCSI_TASK_MANAGE_REPLY).
const TERMINATION_COUNT: usize = 0x14;

// Where an event has its Event and its EventContext (mpi2_ioc.h, MPI2_EVENT_NOTIFICATION_REPLY).
const EVENT: usize = 0x14;

const EVENT_CONTEXT: usize = 0x18;

/// The frame of a reply, or zeros where it has none.
pub(crate) fn bytes_of_reply(frame: &Option<[u8; 128]>) -> [u8; 128]
    ensures { result ≡ unwrap_or frame.now (replicate 128 0) }
{
    match frame {
        Some(bytes) => *bytes,
        None => [0; 128],
    }
}

/// The Function of a reply.
pub(crate) fn function_in(bytes: &[u8]) -> u8
    requires { 20 ≤ length bytes.now }
    ensures { result ≡ function_in bytes.now }
{
    bytes[FUNCTION]
}

/// The IOCStatus of a reply, without the flag that says that there is log information.
pub(crate) fn reply_status(bytes: &[u8]) -> u16
    requires { 20 ≤ length bytes.now }
    ensures { result ≡ reply_status bytes.now }
{
    u16_at(bytes, IOC_STATUS) & IOC_STATUS_MASK
}

/// The SCSIStatus of a SCSI IO's reply.
pub(crate) fn scsi_status(frame: &[u8; 128]) -> u8
    ensures { result ≡ scsi_status_in frame.now }
{
    frame[SCSI_STATUS]
}

/// How many commands a task management request terminated, by its reply.
pub(crate) fn termination_count(frame: &[u8; 128]) -> u32
    ensures { result ≡ termination_count_in frame.now }
{
    u32_at(frame, TERMINATION_COUNT)
}

/// Which event an event tells.
pub(crate) fn event_of(frame: &[u8; 128]) -> u16
    ensures { result ≡ event_in frame.now }
{
    u16_at(frame, EVENT)
}

/// The context of an event, for its acknowledgement.
pub(crate) fn event_context_of(frame: &[u8; 128]) -> u32
    ensures { result ≡ event_context_in frame.now }
{
    u32_at(frame, EVENT_CONTEXT)
}
