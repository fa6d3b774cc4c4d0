//! The replies of the start's handshakes.
ghost use Rattle.std.specs.Prelude.{◌≡◌, ◌≢◌, ◌==◌, ◌≤◌, ◌||◌, None, Some, length, not};
ghost use Rattle.mpt_messages.specs.Function.{byte_of};
ghost use Rattle.mpt_wire.specs.Messages.Fields.{function_in};
ghost use Rattle.mpt_rules.specs.Host.Parts.{Host, host_queue_count};
ghost use Rattle.mpt_messages.specs.Message.{MessageStands, reply_function};
ghost use Rattle.mpt_rules.specs.Host.Handshakes.{are_bad_facts, handshake_function, why_handshake};
ghost use Rattle.host_reading.specs.Checks.{are_bad_facts_of, are_facts_of, why_in};

use crate::checks::{read_message, refuse_where};
use crate::function_byte::byte_of;
use crate::reply::{function_in, reply_status};
use ioc_msgs::IocFactsReply;
use mpi_names::{
    FIRST_DISK_HANDLE, FRAME_DWORDS, HIGH_PRIORITY_SMIDS, LAST_EXPANDER_HANDLE, SMIDS,
};
use mpt_messages::{Function, Message};
use mpt_rules::{IOC_STATUS_SUCCESS, Stage, Why};

/// What a handshake of a host with so many reply queues is done with is the reply of its function,
/// with the facts that the host needs, and succeeded. Else it is `BadFrame`, `BadAnswer` or
/// `BadStatus`, the first of these. What else is done at the doorbell isn't looked at.
pub fn check_handshake(stage: Stage, queues: u8, bytes: &[u8]) -> Result<(), Why>
    ensures { (host : Host) → host_queue_count host ≡ queues →
        why_in result ≡ why_handshake host (handshake_function stage) bytes.now }
{
    match handshake_function(stage) {
        Some(function) => check_reply_of(function, queues, bytes),
        None => Ok(()),
    }
}

// The function of a stage's handshake, where it is one.
fn handshake_function(stage: Stage) -> Option<Function>
    ensures { result ≡ handshake_function stage }
{
    match stage {
        Stage::Facts => Some(Function::IocFacts),
        Stage::PortFacts => Some(Function::PortFacts),
        Stage::Init => Some(Function::IocInit),
        Stage::Idle
        | Stage::Start
        | Stage::StartReset
        | Stage::Look
        | Stage::DiagnosticReset
        | Stage::UnitReset => None,
    }
}

// The bytes are a reply of the function, with good facts, that succeeded.
fn check_reply_of(function: Function, queues: u8, bytes: &[u8]) -> Result<(), Why>
    ensures { (host : Host) → host_queue_count host ≡ queues →
        why_in result ≡ why_handshake host (Some function) bytes.now }
{
    let message = read_message(bytes)?;
    let is_bad = is_bad_answer(function, queues, &message, bytes);
    refuse_where(is_bad, Why::BadAnswer)?;
    let status = reply_status(bytes);
    refuse_where(status != IOC_STATUS_SUCCESS, Why::BadStatus(status))
}

// Whether it is the reply of another function, or has bad facts.
fn is_bad_answer(function: Function, queues: u8, message: &Message, bytes: &[u8]) -> bool
    requires long { 20 ≤ length bytes.now }
    requires reply { reply_function message.now ≢ None }
    requires read { MessageStands message.now bytes.now }
    ensures { (host : Host) → host_queue_count host ≡ queues →
        result ≡ (not (function_in bytes.now == byte_of function) || are_bad_facts host function bytes.now) }
{
    function_in(bytes) != byte_of(function) || are_bad_facts(queues, message)
}

// Whether it has IOC Facts that aren't those of a controller for this host.
fn are_bad_facts(queues: u8, message: &Message) -> bool
    ensures { result ≡ are_bad_facts_of queues message.now }
{
    match message {
        Message::IocFactsReply(facts) => !are_facts_for(queues, facts),
        _ => false,
    }
}

// Whether the controller has as many identifiers as the host, frames of the same sizes, the same
// handles, and at least as many queues.
fn are_facts_for(queues: u8, facts: &IocFactsReply) -> bool
    ensures { result ≡ are_facts_of queues facts.now }
{
    usize::from(facts.request_credit) == SMIDS
        && usize::from(facts.high_priority_credit) == HIGH_PRIORITY_SMIDS
        && facts.ioc_request_frame_size == FRAME_DWORDS
        && u16::from(facts.reply_frame_size) == FRAME_DWORDS
        && facts.min_dev_handle == FIRST_DISK_HANDLE
        && facts.max_dev_handle == LAST_EXPANDER_HANDLE
        && queues <= facts.max_msix_vectors
}
