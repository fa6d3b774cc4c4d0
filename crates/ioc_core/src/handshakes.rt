//! Handshakes at the doorbell: IOC Facts, Port Facts, IOC Init.
ghost use Rattle.std.specs.Prelude.{◌≡◌, ◌≤◌, option_map, slice_index};
ghost use Rattle.mpi_doorbell.specs.Handshake.{IsAsked};
ghost use Rattle.mpt_messages.specs.Fault.{message_fault};
ghost use Rattle.mpt_messages.specs.Function.{byte_of, function_of};
ghost use Rattle.mpt_messages.specs.IocFrames.{IsAnswer};
ghost use Rattle.mpt_messages.specs.Refusal.{request_fault, request_refusal_as};
ghost use Rattle.mpt_messages.specs.declared.function.Function.TheVariants as function;
ghost use Rattle.mpt_messages.specs.declared.function.Kind.TheVariants as kind;
ghost use Rattle.mpt_messages.specs.declared.ioc_reply.IocReply.TheVariants as reply;
ghost use Rattle.mpt_wire.specs.Messages.Fields.{port_number_in};
ghost use Rattle.mpt_rules.specs.Ioc.Parts.{ioc_queue_count, state_of};
ghost use Rattle.mpt_rules.specs.Ioc.Registers.{answers_handshake, ends_init, handshakes, init_status, inits, operates, port_facts_status, serves_handshake, sizes_fit, vectors_fit};
ghost use Rattle.mpt_rules.specs.Ioc.Replies.{refusal_status};
ghost use Rattle.mpt_rules.specs.Ioc.Tables.{is_ready};
ghost use Rattle.ioc_core.specs.Handshakes.{IsShortReply};

use crate::fields::{byte_at, word_at};
use crate::ioc::Ioc;
use ioc_msgs::{decode_ioc_facts, decode_ioc_init, decode_port_facts};
use mpi_doorbell::IocState;
use mpi_names::{FRAME_DWORDS, FREE_RING_ENTRIES, MPI2_FUNCTION_IOC_INIT, POST_RING_ENTRIES};
use mpt_messages::{Function, IocReply, ioc_frame};
use mpt_rules::{
    IOC_STATUS_INVALID_FIELD, IOC_STATUS_INVALID_FUNCTION, IOC_STATUS_INVALID_STATE,
    IOC_STATUS_SUCCESS,
};

// Where every message has its Function.
const FUNCTION: u16 = 0x03;
// Port Facts: PortNumber (mpi2_ioc.h, MPI2_PORT_FACTS_REQUEST).
const PORT_NUMBER: u16 = 0x06;
// IOC Init: HostMSIxVectors, SystemRequestFrameSize, ReplyDescriptorPostQueueDepth and ReplyFreeQueueDepth (mpi2_ioc.h,
// MPI2_IOC_INIT_REQUEST).
const HOST_MSIX_VECTORS: u16 = 0x17;

const REQUEST_FRAME_SIZE: u16 = 0x1a;

const REPLY_POST_QUEUE_DEPTH: u16 = 0x1c;

const REPLY_FREE_QUEUE_DEPTH: u16 = 0x1e;

impl Ioc {
    /// A handshake's message, which is asked, is answered; its function is looked at first, however short it is.
    pub(crate) fn handshake(&mut self, message: &[u8])
        requires { IsAsked self.old.part.door.handshake }
        ensures part { self.new.part ≡ handshakes self.old.part message.now }
        ensures told { self.new.told ≡ self.old.told }
    {
        match handshake_refusal(message) {
            Some(status) => self.answer_plainly(byte_at(message, FUNCTION), status),
            None => self.serve_handshake(message),
        }
    }

    // A handshake's message that stands for one is answered; only three functions travel by the doorbell.
    fn serve_handshake(&mut self, message: &[u8])
        requires { IsAsked self.old.part.door.handshake }
        ensures part { self.new.part ≡ serves_handshake self.old.part message.now (function_of (slice_index message.now 3)) }
        ensures told { self.new.told ≡ self.old.told }
    {
        let function = byte_at(message, FUNCTION);
        match Function::from_byte(function) {
            Some(Function::IocInit) => self.init(message),
            Some(Function::IocFacts) => self.give_facts(),
            Some(Function::PortFacts) => self.give_port_facts(message),
            _ => self.answer_plainly(function, IOC_STATUS_INVALID_FUNCTION),
        }
    }

    // An asked message is answered by a reply of 20 to 128 bytes.
    fn answer_handshake(&mut self, reply: IocReply)
        requires asked { IsAsked self.old.part.door.handshake }
        requires known { IsAnswer reply }
        requires short { IsShortReply reply }
        ensures part { self.new.part ≡ answers_handshake self.old.part reply }
        ensures told { self.new.told ≡ self.old.told }
    {
        let mut frame = [0; 128];
        let length = ioc_frame(&reply, &mut frame);
        self.door.answer(&frame[..length]);
    }

    // It is answered by a reply that has a header alone.
    fn answer_plainly(&mut self, function: u8, status: u16)
        requires { IsAsked self.old.part.door.handshake }
        ensures part { self.new.part ≡ answers_handshake self.old.part (reply.Plain function status) }
        ensures told { self.new.told ≡ self.old.told }
    {
        self.answer_handshake(IocReply::Plain { function, status });
    }

    // IOC Facts.
    fn give_facts(&mut self)
        requires { IsAsked self.old.part.door.handshake }
        ensures part { self.new.part ≡ answers_handshake self.old.part (reply.Facts self.old.part.door.who_init (ioc_queue_count self.old.part)) }
        ensures told { self.new.told ≡ self.old.told }
    {
        let who_init = self.who_init();
        let queues = self.queue_count();
        self.answer_handshake(IocReply::Facts { who_init, queues });
    }

    // Who initialised the controller.
    fn who_init(&self) -> u8
        ensures { result ≡ self.now.part.door.who_init }
    {
        self.door.who_init()
    }

    // Port Facts: there is port 0 alone.
    fn give_port_facts(&mut self, message: &[u8])
        requires { IsAsked self.old.part.door.handshake }
        ensures part { self.new.part ≡ answers_handshake self.old.part (reply.PortFacts (port_number_in message.now) (port_facts_status message.now)) }
        ensures told { self.new.told ≡ self.old.told }
    {
        let port = byte_at(message, PORT_NUMBER);
        let status = port_facts_status(message);
        self.answer_handshake(IocReply::PortFacts { port, status });
    }

    // An IOC Init: where it is answered SUCCESS the controller is OPERATIONAL.
    fn init(&mut self, message: &[u8])
        requires { IsAsked self.old.part.door.handshake }
        ensures part { self.new.part ≡ inits self.old.part message.now (init_status self.old.part message.now) }
        ensures told { self.new.told ≡ self.old.told }
    {
        let status = self.init_status(message);
        self.answer_plainly(MPI2_FUNCTION_IOC_INIT, status);
        if status == IOC_STATUS_SUCCESS {
            self.operate(message);
        }
    }

    // The IOCStatus of an IOC Init.
    fn init_status(&self, message: &[u8]) -> u16
        ensures { result ≡ init_status self.now.part message.now }
    {
        if !self.is_ready() {
            IOC_STATUS_INVALID_STATE
        } else if sizes_fit(message) && self.vectors_fit(message) {
            IOC_STATUS_SUCCESS
        } else {
            IOC_STATUS_INVALID_FIELD
        }
    }

    // Whether the controller waits for IOC Init.
    fn is_ready(&self) -> bool
        ensures { result ≡ is_ready (state_of self.now.part) }
    {
        matches!(self.state(), IocState::Ready)
    }

    // Whether an IOC Init asks for reply queues, and for no more than there are.
    fn vectors_fit(&self, message: &[u8]) -> bool
        ensures { result ≡ vectors_fit self.now.part message.now }
    {
        let vectors = byte_at(message, HOST_MSIX_VECTORS);
        1 <= vectors && vectors <= self.queue_count()
    }

    // After an IOC Init that is answered SUCCESS.
    fn operate(&mut self, message: &[u8])
        ensures part { self.new.part ≡ operates self.old.part message.now }
        ensures told { self.new.told ≡ self.old.told }
    {
        self.door.set_state(IocState::Operational);
        self.vectors = byte_at(message, HOST_MSIX_VECTORS);
    }
}

// The IOCStatus of Port Facts: there is port 0 alone.
fn port_facts_status(message: &[u8]) -> u16
    ensures { result ≡ port_facts_status message.now }
{
    if byte_at(message, PORT_NUMBER) == 0 {
        IOC_STATUS_SUCCESS
    } else {
        IOC_STATUS_INVALID_FIELD
    }
}

// Whether the sizes in an IOC Init are the profile's.
fn sizes_fit(message: &[u8]) -> bool
    ensures { result ≡ sizes_fit message.now }
{
    word_at(message, REQUEST_FRAME_SIZE) == FRAME_DWORDS
        && usize::from(word_at(message, REPLY_POST_QUEUE_DEPTH)) == POST_RING_ENTRIES
        && usize::from(word_at(message, REPLY_FREE_QUEUE_DEPTH)) == FREE_RING_ENTRIES
}

// The IOCStatus of the first refusal of a handshake's message. None where it stands for one.
fn handshake_refusal(message: &[u8]) -> Option<u16>
    ensures { result ≡ option_map refusal_status (request_refusal_as kind.Handshake message.now (function_of (slice_index message.now 3))) }
{
    match Function::from_byte(byte_at(message, FUNCTION)) {
        Some(Function::IocInit) => init_refusal(message),
        Some(Function::IocFacts) => facts_refusal(message),
        Some(Function::PortFacts) => port_facts_refusal(message),
        _ => Some(IOC_STATUS_INVALID_FUNCTION),
    }
}

// The same for an IOC Init.
fn init_refusal(message: &[u8]) -> Option<u16>
    ensures { result ≡ option_map refusal_status (option_map message_fault (request_fault function.IocInit message.now)) }
{
    match decode_ioc_init(message) {
        Ok(_) => None,
        Err(_) => Some(IOC_STATUS_INVALID_FIELD),
    }
}

// The same for IOC Facts.
fn facts_refusal(message: &[u8]) -> Option<u16>
    ensures { result ≡ option_map refusal_status (option_map message_fault (request_fault function.IocFacts message.now)) }
{
    match decode_ioc_facts(message) {
        Ok(_) => None,
        Err(_) => Some(IOC_STATUS_INVALID_FIELD),
    }
}

// The same for Port Facts.
fn port_facts_refusal(message: &[u8]) -> Option<u16>
    ensures { result ≡ option_map refusal_status (option_map message_fault (request_fault function.PortFacts message.now)) }
{
    match decode_port_facts(message) {
        Ok(_) => None,
        Err(_) => Some(IOC_STATUS_INVALID_FIELD),
    }
}
