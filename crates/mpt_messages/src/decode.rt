//! Messages read from bytes, and why bytes are refused.
ghost use Rattle.std.specs.Prelude.{◌≡◌, ◌≢◌, IsTrue, IfOk, MatchResult, None, Ok, Some};
ghost use Rattle.mpt_messages.specs.declared.message.Message.{Message};
ghost use Rattle.mpt_messages.specs.Message.{MessageStands, message_fit, reply_function, request_function};
ghost use Rattle.mpt_messages.specs.Refusal.{IsOfKind, reply_fault, reply_refusal, request_fault, request_refusal};

use crate::fault::MsgFault;
use crate::function::{Function, Kind};
use crate::message::Message;
use config_pages::{decode_config_ask, decode_config_reply};
use event_msgs::{decode_event_ack, decode_event_ack_reply, decode_event_ask, decode_event_reply};
use ioc_msgs::{
    decode_ioc_facts, decode_ioc_facts_reply, decode_ioc_init, decode_ioc_init_reply,
    decode_port_enable, decode_port_enable_reply, decode_port_facts, decode_port_facts_reply,
    decode_unit_control, decode_unit_control_reply,
};
use mpi_layout::Fault;
use scsi_msgs::{decode_scsi_io, decode_scsi_reply, decode_task_ask, decode_task_reply};

/// Reads a request of this kind from the front of the bytes: the message that they stand for, or
/// their first refusal. Bytes past the message play no part.
///
/// # Errors
/// In this order: `Short` below 12 bytes; `UnknownFunction`; `WrongKind` where a request of the
/// function travels otherwise; `Short` and `Field` by the function's layout.
pub fn decode_request(kind: Kind, bytes: &[u8]) -> Result<Message, MsgFault>
    ensures read { MatchResult result (λ m. IsOfKind kind m × MessageStands m bytes.now)
        (λ fault. request_refusal kind bytes.now ≡ Some fault) }
    ensures only { (m : Message) → IsOfKind kind m → MessageStands m bytes.now → result ≡ Ok m }
    ensures fitting { IfOk result (λ m. IsTrue (message_fit m)) }
{
    if bytes.len() < 12 {
        return Err(MsgFault::Short {
            need: 12,
            have: bytes.len(),
        });
    }
    let byte = bytes[3];
    let Some(function) = Function::from_byte(byte) else {
        return Err(MsgFault::UnknownFunction { byte });
    };
    if function.kind() != kind {
        return Err(MsgFault::WrongKind { byte, kind });
    }
    Ok(decode_request_as(function, bytes)?)
}

/// Reads a reply from the front of the bytes: the message that they stand for, or their first
/// refusal. Bytes past the message play no part.
///
/// # Errors
/// In this order: `Short` below 20 bytes; `UnknownFunction`; `Short` and `Field` by the function's
/// layout; `Short` where the tail or the event data isn't whole; `Field` where a topology list's
/// EventDataLength or NumEntries is too small or too great.
pub fn decode_reply(bytes: &[u8]) -> Result<Message, MsgFault>
    ensures read { MatchResult result (λ m. (reply_function m ≢ None) × MessageStands m bytes.now)
        (λ fault. reply_refusal bytes.now ≡ Some fault) }
    ensures only { (m : Message) → (reply_function m ≢ None) → MessageStands m bytes.now → result ≡ Ok m }
    ensures fitting { IfOk result (λ m. IsTrue (message_fit m)) }
{
    if bytes.len() < 20 {
        return Err(MsgFault::Short {
            need: 20,
            have: bytes.len(),
        });
    }
    let byte = bytes[3];
    let Some(function) = Function::from_byte(byte) else {
        return Err(MsgFault::UnknownFunction { byte });
    };
    Ok(decode_reply_as(function, bytes)?)
}

fn decode_request_as(function: Function, bytes: &[u8]) -> Result<Message, Fault>
    ensures read { MatchResult result (λ m. (request_function m ≡ Some function) × MessageStands m bytes.now)
        (λ fault. request_fault function bytes.now ≡ Some fault) }
    ensures only { (m : Message) → request_function m ≡ Some function → MessageStands m bytes.now → result ≡ Ok m }
    ensures fitting { IfOk result (λ m. IsTrue (message_fit m)) }
{
    match function {
        Function::ScsiIo => decode_scsi_io(bytes).map(Message::ScsiIo),
        Function::TaskManagement => decode_task_ask(bytes).map(Message::TaskAsk),
        Function::IocInit => decode_ioc_init(bytes).map(Message::IocInit),
        Function::IocFacts => decode_ioc_facts(bytes).map(Message::IocFacts),
        Function::Config => decode_config_ask(bytes).map(Message::ConfigAsk),
        Function::PortFacts => decode_port_facts(bytes).map(Message::PortFacts),
        Function::PortEnable => decode_port_enable(bytes).map(Message::PortEnable),
        Function::EventNotification => decode_event_ask(bytes).map(Message::EventAsk),
        Function::EventAck => decode_event_ack(bytes).map(Message::EventAck),
        Function::UnitControl => decode_unit_control(bytes).map(Message::UnitControl),
    }
}

fn decode_reply_as(function: Function, bytes: &[u8]) -> Result<Message, Fault>
    ensures read { MatchResult result (λ m. (reply_function m ≡ Some function) × MessageStands m bytes.now)
        (λ fault. reply_fault function bytes.now ≡ Some fault) }
    ensures only { (m : Message) → reply_function m ≡ Some function → MessageStands m bytes.now → result ≡ Ok m }
    ensures fitting { IfOk result (λ m. IsTrue (message_fit m)) }
{
    match function {
        Function::ScsiIo => decode_scsi_reply(bytes).map(Message::ScsiReply),
        Function::TaskManagement => decode_task_reply(bytes).map(Message::TaskReply),
        Function::IocInit => decode_ioc_init_reply(bytes).map(Message::IocInitReply),
        Function::IocFacts => decode_ioc_facts_reply(bytes).map(Message::IocFactsReply),
        Function::Config => decode_config_reply(bytes).map(Message::ConfigReply),
        Function::PortFacts => decode_port_facts_reply(bytes).map(Message::PortFactsReply),
        Function::PortEnable => decode_port_enable_reply(bytes).map(Message::PortEnableReply),
        Function::EventNotification => decode_event_reply(bytes).map(Message::EventReply),
        Function::EventAck => decode_event_ack_reply(bytes).map(Message::EventAckReply),
        Function::UnitControl => decode_unit_control_reply(bytes).map(Message::UnitControlReply),
    }
}
