//! The message in a post's frame.
ghost use Rattle.std.specs.Prelude.{◌≡◌, MatchResult, Some};
ghost use Rattle.mpt_messages.specs.Refusal.{request_refusal};
ghost use Rattle.mpt_rules.specs.Ioc.Replies.{refusal_status};
ghost use Rattle.mpt_rules.specs.Ioc.Steps.{way_of};
ghost use Rattle.ioc_requests.specs.Asked.{IsAsked, IsRead};

use crate::fields::kind_of;
use config_pages::ConfigAsk;
use event_msgs::{EventAck, EventAsk};
use ioc_msgs::UnitControl;
use mpi_rings::PostKind;
use mpt_messages::{Kind, Message, MsgFault, decode_request};
use mpt_rules::{IOC_STATUS_INVALID_FIELD, IOC_STATUS_INVALID_FUNCTION, Post};
use scsi_msgs::{ScsiIo, TaskAsk};

/// What a post asks.
#[derive(Clone, Copy)]
pub enum Asked {
    /// A command for a disk.
    Command(ScsiIo),
    /// Task management.
    Task(TaskAsk),
    /// A configuration page.
    Page(ConfigAsk),
    /// Port enable.
    Enable,
    /// Event notification.
    Notification(EventAsk),
    /// An acknowledgement of an event.
    Ack(EventAck),
    /// SAS IO unit control.
    Control(UnitControl),
}

/// What the controller reads in a post.
#[derive(Clone, Copy)]
pub enum PostRead {
    /// Its descriptor is of no kind.
    Kindless,
    /// Its frame stands for no request of its kind.
    Refused(PostKind, MsgFault),
    /// What it asks.
    Asks(Asked),
}

/// What stands in a post.
pub fn read_asked(post: &Post) -> PostRead
    ensures { IsRead post.now result }
{
    let Some(kind) = kind_of(post.descriptor) else {
        return PostRead::Kindless;
    };
    match read_frame(kind, &post.frame) {
        Ok(asked) => PostRead::Asks(asked),
        Err(fault) => PostRead::Refused(kind, fault),
    }
}

// What a post of this kind asks by its frame, or the first refusal of the frame.
fn read_frame(kind: PostKind, frame: &[u8; 128]) -> Result<Asked, MsgFault>
    ensures { MatchResult result (λ a. IsAsked kind a frame.now)
        (λ fault. request_refusal (way_of kind) frame.now ≡ Some fault) }
{
    match decode_request(way_of(kind), frame)? {
        Message::ScsiIo(io) => Ok(Asked::Command(io)),
        Message::TaskAsk(ask) => Ok(Asked::Task(ask)),
        Message::ConfigAsk(ask) => Ok(Asked::Page(ask)),
        Message::PortEnable(_) => Ok(Asked::Enable),
        Message::EventAsk(ask) => Ok(Asked::Notification(ask)),
        Message::EventAck(ack) => Ok(Asked::Ack(ack)),
        Message::UnitControl(ask) => Ok(Asked::Control(ask)),
        _ => unreachable!(),
    }
}

// The kind of message that a kind of post carries.
fn way_of(kind: PostKind) -> Kind
    ensures { result ≡ way_of kind }
{
    match kind {
        PostKind::ScsiIo => Kind::ScsiIo,
        PostKind::HighPriority => Kind::HighPriority,
        PostKind::Default => Kind::Default,
    }
}

/// The IOCStatus for a frame that stands for no request of its kind.
pub fn refusal_status(fault: MsgFault) -> u16
    ensures { result ≡ refusal_status fault }
{
    match fault {
        MsgFault::Short { .. } | MsgFault::Field { .. } => IOC_STATUS_INVALID_FIELD,
        MsgFault::UnknownFunction { .. } | MsgFault::WrongKind { .. } =>
            IOC_STATUS_INVALID_FUNCTION,
    }
}
