//! All messages of the profile together.
ghost use Rattle.std.specs.Prelude.{◌≡◌, ◌≤◌, ◌++◌, IsTrue, IfOk, OnOk, drop};
ghost use Rattle.mpt_messages.specs.Message.{MessageStands, message_fit, message_length, message_listing, scsi_reply_listing};

use crate::event_listing::push_event;
use crate::listing::{push_heading, push_listing, push_rows, push_tail};
use config_pages::{
    ConfigAsk, ConfigReply, config_ask_fits, config_reply_fits, encode_config_ask,
    encode_config_reply,
};
use event_msgs::{
    EventAck, EventAckReply, EventAsk, EventReply, encode_event_ack, encode_event_ack_reply,
    encode_event_ask, encode_event_reply, event_ack_fits, event_ack_reply_fits, event_ask_fits,
    event_reply_fits,
};
use ioc_msgs::{
    IocFacts, IocFactsReply, IocInit, IocInitReply, PortEnable, PortEnableReply, PortFacts,
    PortFactsReply, UnitControl, UnitControlReply, encode_ioc_facts, encode_ioc_facts_reply,
    encode_ioc_init, encode_ioc_init_reply, encode_port_enable, encode_port_enable_reply,
    encode_port_facts, encode_port_facts_reply, encode_unit_control, encode_unit_control_reply,
    ioc_facts_fits, ioc_facts_reply_fits, ioc_init_fits, ioc_init_reply_fits, port_enable_fits,
    port_enable_reply_fits, port_facts_fits, port_facts_reply_fits, unit_control_fits,
    unit_control_reply_fits,
};
use mpt_text::{OutOfMemory, Text};
use scsi_msgs::{
    ScsiIo, ScsiReply, TaskAsk, TaskReply, encode_scsi_io, encode_scsi_reply, encode_task_ask,
    encode_task_reply, scsi_io_fits, scsi_reply_fits, task_ask_fits, task_reply_fits,
};
use std::alloc::Global;

/// A message of the profile.
#[derive(Clone, Copy)]
pub enum Message {
    /// A SCSI IO request.
    ScsiIo(ScsiIo),
    /// A task management request.
    TaskAsk(TaskAsk),
    /// An IOC Init request.
    IocInit(IocInit),
    /// An IOC Facts request.
    IocFacts(IocFacts),
    /// A configuration request.
    ConfigAsk(ConfigAsk),
    /// A Port Facts request.
    PortFacts(PortFacts),
    /// A Port Enable request.
    PortEnable(PortEnable),
    /// An Event Notification request.
    EventAsk(EventAsk),
    /// An Event Ack request.
    EventAck(EventAck),
    /// A SAS IO unit control request.
    UnitControl(UnitControl),
    /// A SCSI IO reply.
    ScsiReply(ScsiReply),
    /// A task management reply.
    TaskReply(TaskReply),
    /// An IOC Init reply.
    IocInitReply(IocInitReply),
    /// An IOC Facts reply.
    IocFactsReply(IocFactsReply),
    /// A configuration reply.
    ConfigReply(ConfigReply),
    /// A Port Facts reply.
    PortFactsReply(PortFactsReply),
    /// A Port Enable reply.
    PortEnableReply(PortEnableReply),
    /// An Event Notification reply, or an event.
    EventReply(EventReply),
    /// An Event Ack reply.
    EventAckReply(EventAckReply),
    /// A SAS IO unit control reply.
    UnitControlReply(UnitControlReply),
}

/// Whether some bytes stand for the message: each field fits its row's width and rule, and what the
/// message doesn't have is 0.
pub fn message_fits(m: &Message) -> bool
    ensures { result ≡ message_fit m.now }
{
    match m {
        Message::ScsiIo(m) => scsi_io_fits(m),
        Message::TaskAsk(m) => task_ask_fits(m),
        Message::IocInit(m) => ioc_init_fits(m),
        Message::IocFacts(m) => ioc_facts_fits(m),
        Message::ConfigAsk(m) => config_ask_fits(m),
        Message::PortFacts(m) => port_facts_fits(m),
        Message::PortEnable(m) => port_enable_fits(m),
        Message::EventAsk(m) => event_ask_fits(m),
        Message::EventAck(m) => event_ack_fits(m),
        Message::UnitControl(m) => unit_control_fits(m),
        Message::ScsiReply(m) => scsi_reply_fits(m),
        Message::TaskReply(m) => task_reply_fits(m),
        Message::IocInitReply(m) => ioc_init_reply_fits(m),
        Message::IocFactsReply(m) => ioc_facts_reply_fits(m),
        Message::ConfigReply(m) => config_reply_fits(m),
        Message::PortFactsReply(m) => port_facts_reply_fits(m),
        Message::PortEnableReply(m) => port_enable_reply_fits(m),
        Message::EventReply(m) => event_reply_fits(m),
        Message::EventAckReply(m) => event_ack_reply_fits(m),
        Message::UnitControlReply(m) => unit_control_reply_fits(m),
    }
}

/// Writes the message's bytes, from which it is read back, and gives their number. The bytes past
/// them stay.
pub fn encode(m: &Message, out: &mut [u8; 128]) -> usize
    requires { IsTrue (message_fit m.now) }
    ensures long { result ≡ message_length m.now }
    ensures stands { MessageStands m.now out.new }
    ensures rest { drop (message_length m.now) out.new ≡ drop (message_length m.now) out.old }
{
    match m {
        Message::ScsiIo(m) => encode_scsi_io(m, out),
        Message::TaskAsk(m) => encode_task_ask(m, out),
        Message::IocInit(m) => encode_ioc_init(m, out),
        Message::IocFacts(m) => encode_ioc_facts(m, out),
        Message::ConfigAsk(m) => encode_config_ask(m, out),
        Message::PortFacts(m) => encode_port_facts(m, out),
        Message::PortEnable(m) => encode_port_enable(m, out),
        Message::EventAsk(m) => encode_event_ask(m, out),
        Message::EventAck(m) => encode_event_ack(m, out),
        Message::UnitControl(m) => encode_unit_control(m, out),
        Message::ScsiReply(m) => encode_scsi_reply(m, out),
        Message::TaskReply(m) => encode_task_reply(m, out),
        Message::IocInitReply(m) => encode_ioc_init_reply(m, out),
        Message::IocFactsReply(m) => encode_ioc_facts_reply(m, out),
        Message::ConfigReply(m) => encode_config_reply(m, out),
        Message::PortFactsReply(m) => encode_port_facts_reply(m, out),
        Message::PortEnableReply(m) => encode_port_enable_reply(m, out),
        Message::EventReply(m) => encode_event_reply(m, out),
        Message::EventAckReply(m) => encode_event_ack_reply(m, out),
        Message::UnitControlReply(m) => encode_unit_control_reply(m, out),
    }
}

/// The message's listing: a line with its name and its length in bytes, and a line for each row.
pub fn list_text(alloc: Global, m: &Message) -> Result<Text, OutOfMemory>
    ensures { IfOk result (λ text. text ≡ message_listing m.now) }
{
    let mut text = Text::new(alloc);
    push_message(&mut text, m)?;
    Ok(text)
}

// Adds the listing of a message that is its layout's rows and no more.
macro_rules! list {
    ($text:expr, $m:expr, $name:literal, $message:ident) => {
        push_listing($text, $name, &$message::layout(), &$m.values())
    };
}

// Adds the listing of the message.
fn push_message(text: &mut Text, m: &Message) -> Result<(), OutOfMemory>
    ensures { OnOk result (text.new ≡ text.old ++ message_listing m.now) }
{
    match m {
        Message::ScsiIo(m) => list!(text, m, b"scsi-io", ScsiIo),
        Message::TaskAsk(m) => list!(text, m, b"task-mgmt", TaskAsk),
        Message::IocInit(m) => list!(text, m, b"ioc-init", IocInit),
        Message::IocFacts(m) => list!(text, m, b"ioc-facts", IocFacts),
        Message::ConfigAsk(m) => list!(text, m, b"config", ConfigAsk),
        Message::PortFacts(m) => list!(text, m, b"port-facts", PortFacts),
        Message::PortEnable(m) => list!(text, m, b"port-enable", PortEnable),
        Message::EventAsk(m) => list!(text, m, b"event-notification", EventAsk),
        Message::EventAck(m) => list!(text, m, b"event-ack", EventAck),
        Message::UnitControl(m) => list!(text, m, b"sas-unit-control", UnitControl),
        Message::ScsiReply(m) => push_scsi_reply(text, m),
        Message::TaskReply(m) => list!(text, m, b"task-mgmt-reply", TaskReply),
        Message::IocInitReply(m) => list!(text, m, b"ioc-init-reply", IocInitReply),
        Message::IocFactsReply(m) => list!(text, m, b"ioc-facts-reply", IocFactsReply),
        Message::ConfigReply(m) => list!(text, m, b"config-reply", ConfigReply),
        Message::PortFactsReply(m) => list!(text, m, b"port-facts-reply", PortFactsReply),
        Message::PortEnableReply(m) => list!(text, m, b"port-enable-reply", PortEnableReply),
        Message::EventReply(m) => push_event(text, m),
        Message::EventAckReply(m) => list!(text, m, b"event-ack-reply", EventAckReply),
        Message::UnitControlReply(m) => list!(text, m, b"sas-unit-control-reply", UnitControlReply),
    }
}

// Adds the listing of a SCSI IO reply: its rows and its tail.
fn push_scsi_reply(text: &mut Text, m: &ScsiReply) -> Result<(), OutOfMemory>
    ensures { OnOk result (text.new ≡ text.old ++ scsi_reply_listing m.now) }
{
    push_heading(text, b"scsi-io-reply", m.length() as u64)?;
    push_rows(text, &ScsiReply::layout(), &m.values())?;
    push_tail(text, 0x28, m.tail_bytes())
}
