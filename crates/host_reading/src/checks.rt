//! What is strange about what comes up, as far as the item and what was asked tell it.
ghost use Rattle.std.specs.Prelude.{◌≡◌, ◌≢◌, IfOk, None, OnOk};
ghost use Rattle.mpt_messages.specs.Message.{MessageStands, reply_function};
ghost use Rattle.mpt_rules.specs.Host.Handshakes.{bad_bytes, where_true};
ghost use Rattle.mpt_rules.specs.Host.Strange.{bad_answer, bad_descriptor, bad_frame, bad_status, function_by, is_address, is_scsi_status, is_success, is_wrong_page, status_by, takes_status, wrong_queue_of_mark, wrong_queue_of_reply, wrong_queue_of_value};
ghost use Rattle.host_reading.specs.Checks.{why_in};

use crate::descriptor::{flags_of, is_scsi_smid, smid_of_reply};
use crate::function_byte::{byte_of, function_due};
use crate::page::is_page_for;
use crate::reply::{function_in, reply_status};
use mpi_names::{MPI2_RPY_DESCRIPT_FLAGS_ADDRESS_REPLY, MPI2_RPY_DESCRIPT_FLAGS_SCSI_IO_SUCCESS};
use mpt_messages::{Function, Message, decode_reply};
use mpt_rules::{
    IOC_STATUS_SCSI_DATA_UNDERRUN, IOC_STATUS_SCSI_DEVICE_NOT_THERE,
    IOC_STATUS_SCSI_INVALID_DEVHANDLE, IOC_STATUS_SCSI_TASK_TERMINATED, IOC_STATUS_SUCCESS,
    Request, Why,
};

/// A why where this is so.
pub fn refuse_where(is_so: bool, why: Why) -> Result<(), Why>
    ensures { why_in result ≡ where_true is_so why }
{
    if is_so { Err(why) } else { Ok(()) }
}

/// A value comes on queue 0, else it is `WrongQueue`.
pub fn check_queue_of_value(queue: u8) -> Result<(), Why>
    ensures { why_in result ≡ wrong_queue_of_value queue }
{
    refuse_where(queue > 0, Why::WrongQueue(queue))
}

/// A reply of no SCSI IO comes on queue 0, else it is `WrongQueue`.
pub fn check_queue_of_reply(queue: u8, descriptor: u64) -> Result<(), Why>
    ensures { why_in result ≡ wrong_queue_of_reply queue descriptor }
{
    let is_wrong = queue > 0 && !is_scsi_smid(smid_of_reply(descriptor));
    refuse_where(is_wrong, Why::WrongQueue(queue))
}

/// A mark comes on a queue above 0, else it is `WrongQueue`.
pub fn check_queue_of_mark(queue: u8) -> Result<(), Why>
    ensures { why_in result ≡ wrong_queue_of_mark queue }
{
    refuse_where(queue == 0, Why::WrongQueue(queue))
}

/// A descriptor is a SCSI IO's success reply without a frame, or an address reply with one, else it
/// is `BadDescriptor`.
pub fn check_descriptor(descriptor: u64, frame: &Option<[u8; 128]>) -> Result<(), Why>
    ensures why { why_in result ≡ bad_descriptor descriptor frame.now }
    ensures used { OnOk result (descriptor ≢ 0xffff_ffff_ffff_ffff) }
{
    let is_known = is_success(descriptor, frame) || is_address(descriptor, frame);
    refuse_where(!is_known, Why::BadDescriptor)
}

// Whether it is a success reply.
fn is_success(descriptor: u64, frame: &Option<[u8; 128]>) -> bool
    ensures { result ≡ is_success descriptor frame.now }
{
    flags_of(descriptor) == MPI2_RPY_DESCRIPT_FLAGS_SCSI_IO_SUCCESS
        && frame.is_none()
        && is_scsi_smid(smid_of_reply(descriptor))
}

// Whether it is an address reply.
fn is_address(descriptor: u64, frame: &Option<[u8; 128]>) -> bool
    ensures { result ≡ is_address descriptor frame.now }
{
    flags_of(descriptor) == MPI2_RPY_DESCRIPT_FLAGS_ADDRESS_REPLY && frame.is_some()
}

/// The bytes of a frame stand for a reply, else it is `BadFrame`.
pub fn check_frame(frame: &Option<[u8; 128]>) -> Result<(), Why>
    ensures { why_in result ≡ bad_frame frame.now }
{
    match frame {
        Some(bytes) => {
            let _message = read_message(bytes)?;
            Ok(())
        }
        None => Ok(()),
    }
}

// The message that the bytes of a reply stand for, or `BadFrame`.
pub(crate) fn read_message(bytes: &[u8]) -> Result<Message, Why>
    ensures why { why_in result ≡ bad_bytes bytes.now }
    ensures read { IfOk result (λ m. (reply_function m ≢ None) × MessageStands m bytes.now) }
{
    match decode_reply(bytes) {
        Ok(message) => Ok(message),
        Err(fault) => Err(Why::BadFrame(fault)),
    }
}

/// A reply has the function of what was asked, and a page that was read is the handle's, else it is
/// `BadAnswer`. What comes without an identifier, so that nothing was asked, is an event.
pub fn check_answer(
    asked: Option<Request>,
    frame: &Option<[u8; 128]>,
    page: &[u8],
) -> Result<(), Why>
    ensures { why_in result ≡ bad_answer asked frame.now page.now }
{
    let is_bad = function_by(frame) != byte_of(function_due(asked))
        || is_wrong_page(asked, status_by(frame), page);
    refuse_where(is_bad, Why::BadAnswer)
}

// The function of a reply: one without a frame is a SCSI IO's.
fn function_by(frame: &Option<[u8; 128]>) -> u8
    ensures { result ≡ function_by frame.now }
{
    match frame {
        Some(bytes) => function_in(bytes),
        None => byte_of(Function::ScsiIo),
    }
}

// The status of a reply: one without a frame succeeded.
fn status_by(frame: &Option<[u8; 128]>) -> u16
    ensures { result ≡ status_by frame.now }
{
    match frame {
        Some(bytes) => reply_status(bytes),
        None => IOC_STATUS_SUCCESS,
    }
}

// Whether a page that was read isn't the handle's.
fn is_wrong_page(asked: Option<Request>, status: u16, page: &[u8]) -> bool
    ensures { result ≡ is_wrong_page asked status page.now }
{
    match asked {
        Some(Request::Page { handle }) => {
            status == IOC_STATUS_SUCCESS && !is_page_for(handle, page)
        }
        _ => false,
    }
}

/// A reply has a status that the host takes, else it is `BadStatus`: a SCSI IO has one of five, the
/// start's two requests succeed, and all others have any.
pub fn check_status(asked: Option<Request>, frame: &Option<[u8; 128]>) -> Result<(), Why>
    ensures { why_in result ≡ bad_status asked (status_by frame.now) }
{
    let status = status_by(frame);
    refuse_where(!takes_status(asked, status), Why::BadStatus(status))
}

// Whether the host takes the status of a reply to this.
fn takes_status(asked: Option<Request>, status: u16) -> bool
    ensures { result ≡ takes_status asked status }
{
    match asked {
        Some(Request::Command { .. }) => is_scsi_status(status),
        Some(Request::Notification | Request::PortEnable) => status == IOC_STATUS_SUCCESS,
        _ => true,
    }
}

// Whether a SCSI IO may end so.
fn is_scsi_status(status: u16) -> bool
    ensures { result ≡ is_scsi_status status }
{
    matches!(
        status,
        IOC_STATUS_SUCCESS
            | IOC_STATUS_SCSI_INVALID_DEVHANDLE
            | IOC_STATUS_SCSI_DEVICE_NOT_THERE
            | IOC_STATUS_SCSI_DATA_UNDERRUN
            | IOC_STATUS_SCSI_TASK_TERMINATED
    )
}
