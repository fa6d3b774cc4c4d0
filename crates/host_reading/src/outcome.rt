//! How commands and aborts end, by their replies.
ghost use Rattle.std.specs.Prelude.{◌≡◌};
ghost use Rattle.mpt_rules.specs.Host.Replies.{abort_outcome, ended, ended_by};

use crate::reply::{reply_status, scsi_status, termination_count};
use mpi_names::MPI2_SCSI_STATUS_GOOD;
use mpt_rules::{
    IOC_STATUS_SCSI_DATA_UNDERRUN, IOC_STATUS_SCSI_TASK_TERMINATED, IOC_STATUS_SUCCESS,
};
use mpt_trace::{AbortOutcome, Outcome};
use scsi_disk::{Bytes, ScsiResult};

/// How a SCSI IO ended, by its reply and by the data and the sense data that came with it. A success
/// reply, which has no frame, means GOOD.
pub(crate) fn outcome_of(frame: &Option<[u8; 128]>, page: Bytes, sense: Bytes) -> Outcome
    ensures { result ≡ ended frame.now page sense }
{
    match frame {
        None => Outcome::Done(ScsiResult {
            status: MPI2_SCSI_STATUS_GOOD,
            payload: page,
            sense,
        }),
        Some(frame) => ended_by(
            reply_status(frame),
            ScsiResult {
                status: scsi_status(frame),
                payload: page,
                sense,
            },
        ),
    }
}

// How it ended, by its IOCStatus.
fn ended_by(status: u16, result_read: ScsiResult) -> Outcome
    ensures { result ≡ ended_by status result_read }
{
    match status {
        IOC_STATUS_SUCCESS | IOC_STATUS_SCSI_DATA_UNDERRUN => Outcome::Done(result_read),
        IOC_STATUS_SCSI_TASK_TERMINATED => Outcome::Terminated,
        _ => Outcome::Gone,
    }
}

/// How an abort ended, by its reply: it stopped the command where the controller terminated one.
pub(crate) fn abort_outcome(frame: &[u8; 128]) -> AbortOutcome
    ensures { result ≡ abort_outcome frame.now }
{
    if reply_status(frame) == IOC_STATUS_SUCCESS && termination_count(frame) > 0 {
        AbortOutcome::Stopped
    } else {
        AbortOutcome::NotFound
    }
}
