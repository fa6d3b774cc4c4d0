//! The lines of refusals.
ghost use Rattle.std.specs.Prelude.{◌≡◌, ◌++◌, OnOk, slice_index};
ghost use Rattle.mpt_messages.specs.Function.{function_of};
ghost use Rattle.mpt_messages.specs.RefusalListing.{event_fault_text, kind_word, reply_fault_text, reply_refusal_text, request_fault_text, request_refusal_text, unknown_text, wrong_kind_text};

use crate::fault::MsgFault;
use crate::function::{Function, Kind};
use crate::listing::{push_fault, push_field, push_short};
use config_pages::{ConfigAsk, ConfigReply};
use event_msgs::{EventAck, EventAckReply, EventAsk, EventReply};
use ioc_msgs::{
    IocFacts, IocFactsReply, IocInit, IocInitReply, PortEnable, PortEnableReply, PortFacts,
    PortFactsReply, UnitControl, UnitControlReply,
};
use mpi_layout::Fault;
use mpt_text::{OutOfMemory, Text};
use scsi_msgs::{ScsiIo, ScsiReply, TaskAsk, TaskReply};

/// Adds the line of a request's refusal: `short need N have M`, `unknown function BB`, `wrong kind BB
/// <kind>` or `field OO Name`, where the name is the row's in the layout of the bytes' function.
pub fn push_request_refusal(
    text: &mut Text,
    bytes: &[u8],
    fault: MsgFault,
) -> Result<(), OutOfMemory>
    ensures { OnOk result (text.new ≡ text.old ++ request_refusal_text bytes.now fault) }
{
    match fault {
        MsgFault::Short { need, have } => push_short(text, need as u64, have as u64),
        MsgFault::Field { at } => match function_at(bytes) {
            Some(function) => push_request_fault(text, function, Fault::Field { at }),
            None => push_field(text, at, ""),
        },
        MsgFault::UnknownFunction { byte } => push_unknown(text, byte),
        MsgFault::WrongKind { byte, kind } => push_wrong_kind(text, byte, kind),
    }
}

/// Adds the line of a reply's refusal, likewise.
pub fn push_reply_refusal(text: &mut Text, bytes: &[u8], fault: MsgFault) -> Result<(), OutOfMemory>
    ensures { OnOk result (text.new ≡ text.old ++ reply_refusal_text bytes.now fault) }
{
    match fault {
        MsgFault::Short { need, have } => push_short(text, need as u64, have as u64),
        MsgFault::Field { at } => match function_at(bytes) {
            Some(function) => push_reply_fault(text, function, Fault::Field { at }),
            None => push_field(text, at, ""),
        },
        MsgFault::UnknownFunction { byte } => push_unknown(text, byte),
        MsgFault::WrongKind { byte, kind } => push_wrong_kind(text, byte, kind),
    }
}

// The function that the byte at 03 names, where bytes past the end count as 0.
fn function_at(bytes: &[u8]) -> Option<Function>
    ensures { result ≡ function_of (slice_index bytes.now 3) }
{
    Function::from_byte(if bytes.len() > 3 { bytes[3] } else { 0 })
}

fn push_unknown(text: &mut Text, byte: u8) -> Result<(), OutOfMemory>
    ensures { OnOk result (text.new ≡ text.old ++ unknown_text byte) }
{
    text.push(b"unknown function ")?;
    text.push_digits(&[byte])?;
    text.push(b"\n")
}

fn push_wrong_kind(text: &mut Text, byte: u8, kind: Kind) -> Result<(), OutOfMemory>
    ensures { OnOk result (text.new ≡ text.old ++ wrong_kind_text byte kind) }
{
    text.push(b"wrong kind ")?;
    text.push_digits(&[byte])?;
    text.push(b" ")?;
    push_kind(text, kind)?;
    text.push(b"\n")
}

fn push_kind(text: &mut Text, kind: Kind) -> Result<(), OutOfMemory>
    ensures { OnOk result (text.new ≡ text.old ++ kind_word kind) }
{
    match kind {
        Kind::ScsiIo => text.push(b"scsi"),
        Kind::HighPriority => text.push(b"high"),
        Kind::Default => text.push(b"default"),
        Kind::Handshake => text.push(b"door"),
    }
}

fn push_request_fault(text: &mut Text, function: Function, fault: Fault) -> Result<(), OutOfMemory>
    ensures { OnOk result (text.new ≡ text.old ++ request_fault_text function fault) }
{
    match function {
        Function::ScsiIo => push_fault(text, &ScsiIo::layout(), fault),
        Function::TaskManagement => push_fault(text, &TaskAsk::layout(), fault),
        Function::IocInit => push_fault(text, &IocInit::layout(), fault),
        Function::IocFacts => push_fault(text, &IocFacts::layout(), fault),
        Function::Config => push_fault(text, &ConfigAsk::layout(), fault),
        Function::PortFacts => push_fault(text, &PortFacts::layout(), fault),
        Function::PortEnable => push_fault(text, &PortEnable::layout(), fault),
        Function::EventNotification => push_fault(text, &EventAsk::layout(), fault),
        Function::EventAck => push_fault(text, &EventAck::layout(), fault),
        Function::UnitControl => push_fault(text, &UnitControl::layout(), fault),
    }
}

fn push_reply_fault(text: &mut Text, function: Function, fault: Fault) -> Result<(), OutOfMemory>
    ensures { OnOk result (text.new ≡ text.old ++ reply_fault_text function fault) }
{
    match function {
        Function::ScsiIo => push_fault(text, &ScsiReply::layout(), fault),
        Function::TaskManagement => push_fault(text, &TaskReply::layout(), fault),
        Function::IocInit => push_fault(text, &IocInitReply::layout(), fault),
        Function::IocFacts => push_fault(text, &IocFactsReply::layout(), fault),
        Function::Config => push_fault(text, &ConfigReply::layout(), fault),
        Function::PortFacts => push_fault(text, &PortFactsReply::layout(), fault),
        Function::PortEnable => push_fault(text, &PortEnableReply::layout(), fault),
        Function::EventNotification => push_event_fault(text, fault),
        Function::EventAck => push_fault(text, &EventAckReply::layout(), fault),
        Function::UnitControl => push_fault(text, &UnitControlReply::layout(), fault),
    }
}

// Beside the rows of the fixed part, an event has NumEntries at 24.
fn push_event_fault(text: &mut Text, fault: Fault) -> Result<(), OutOfMemory>
    ensures { OnOk result (text.new ≡ text.old ++ event_fault_text fault) }
{
    match fault {
        Fault::Field { at: 0x24 } => text.push(b"field 24 NumEntries\n"),
        _ => push_fault(text, &EventReply::layout(), fault),
    }
}
