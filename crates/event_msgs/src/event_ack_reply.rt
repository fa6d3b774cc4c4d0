//! A reply to an event acknowledgement.
ghost use Rattle.std.specs.Prelude.{◌≡◌, ◌≤◌, IsTrue, IfOk, MatchResult, Ok, Some, length, drop};
ghost use Rattle.mpi_layout.specs.Rows.{cut_from, first_fault, values_fit};
ghost use Rattle.event_msgs.specs.EventAckReply.{EventAckReplyStands, event_ack_reply_layout, event_ack_reply_values};

use mpi_layout::{Fault, Layout, Row, Rule, fits, low, number, read, write};

// mpi2_ioc.h, MPI2_EVENT_ACK_REPLY.
static EVENT_ACK_REPLY_ROWS: [Row; 12] = [
    number!(0x00, 2, "Reserved", Rule::Any),
    number!(0x02, 1, "MsgLength", Rule::Between(5, 32)),
    number!(0x03, 1, "Function", Rule::Is(0x08)),
    number!(0x04, 2, "Reserved", Rule::Any),
    number!(0x06, 1, "Reserved", Rule::Any),
    number!(0x07, 1, "MsgFlags", Rule::Any),
    number!(0x08, 1, "VP_ID", Rule::Any),
    number!(0x09, 1, "VF_ID", Rule::Any),
    number!(0x0a, 2, "Reserved", Rule::Any),
    number!(0x0c, 2, "Reserved", Rule::Any),
    number!(0x0e, 2, "IOCStatus", Rule::Any),
    number!(0x10, 4, "IOCLogInfo", Rule::Any),
];

/// A reply to an event acknowledgement (mpi2_ioc.h, MPI2_EVENT_ACK_REPLY): the controller has the
/// acknowledgement. 20 bytes.
#[derive(Clone, Copy, Debug, PartialEq, Eq)]
pub struct EventAckReply {
    /// Reserved; kept as it is.
    pub reserved_00: u16,
    /// The reply's length in dwords, from 5 to 32.
    pub msg_length: u8,
    /// The message's function: 08, event acknowledgement.
    pub function: u8,
    /// Reserved; kept as it is.
    pub reserved_04: u16,
    /// Reserved; kept as it is.
    pub reserved_06: u8,
    /// Flags of the message.
    pub msg_flags: u8,
    /// The virtual port.
    pub vp_id: u8,
    /// The virtual function.
    pub vf_id: u8,
    /// Reserved; kept as it is.
    pub reserved_0a: u16,
    /// Reserved; kept as it is.
    pub reserved_0c: u16,
    /// The controller's status: a code in the low 15 bits, and 8000 where IOCLogInfo counts.
    pub ioc_status: u16,
    /// Further information on the status for a log.
    pub ioc_log_info: u32,
}

impl EventAckReply {
    /// The layout: 12 rows, 20 bytes.
    pub fn layout() -> Layout<12>
        ensures { result ≡ event_ack_reply_layout }
    {
        Layout::new(&EVENT_ACK_REPLY_ROWS, 20)
    }

    /// The fields' numbers in the layout's order.
    pub fn values(&self) -> [u64; 12]
        ensures { result ≡ event_ack_reply_values self.now }
    {
        [
            u64::from(self.reserved_00),
            u64::from(self.msg_length),
            u64::from(self.function),
            u64::from(self.reserved_04),
            u64::from(self.reserved_06),
            u64::from(self.msg_flags),
            u64::from(self.vp_id),
            u64::from(self.vf_id),
            u64::from(self.reserved_0a),
            u64::from(self.reserved_0c),
            u64::from(self.ioc_status),
            u64::from(self.ioc_log_info),
        ]
    }

    // The message whose fields are the low bytes of these numbers.
    fn from_values(values: &[u64; 12]) -> EventAckReply
        ensures { event_ack_reply_values result ≡ cut_from event_ack_reply_layout.rows values.now 0 }
    {
        EventAckReply {
            reserved_00: low!(values[0], 2),
            msg_length: low!(values[1], 1),
            function: low!(values[2], 1),
            reserved_04: low!(values[3], 2),
            reserved_06: low!(values[4], 1),
            msg_flags: low!(values[5], 1),
            vp_id: low!(values[6], 1),
            vf_id: low!(values[7], 1),
            reserved_0a: low!(values[8], 2),
            reserved_0c: low!(values[9], 2),
            ioc_status: low!(values[10], 2),
            ioc_log_info: low!(values[11], 4),
        }
    }
}

/// Reads the message from the front of the bytes: the message that they stand for, or their first
/// fault. Bytes past the message play no part.
///
/// # Errors
/// `Short` exactly where there are fewer than 20 bytes; else `Field` with the least offset whose
/// row breaks its rule.
pub fn decode_event_ack_reply(bytes: &[u8]) -> Result<EventAckReply, Fault>
    ensures read { MatchResult result (λ m. EventAckReplyStands m bytes.now)
        (λ fault. first_fault event_ack_reply_layout bytes.now ≡ Some fault) }
    ensures only { (m : EventAckReply) → EventAckReplyStands m bytes.now → result ≡ Ok m }
    ensures fitting { IfOk result (λ m. IsTrue (values_fit event_ack_reply_layout.rows (event_ack_reply_values m))) }
{
    let values = read(&EventAckReply::layout(), bytes)?;
    Ok(EventAckReply::from_values(&values))
}

/// Whether each field fits its row's width and rule, so that some bytes stand for the message.
pub fn event_ack_reply_fits(m: &EventAckReply) -> bool
    ensures { result ≡ values_fit event_ack_reply_layout.rows (event_ack_reply_values m.now) }
{
    fits(&EventAckReply::layout(), &m.values())
}

/// Writes the message's 20 bytes, from which it is read back, and gives their number. The bytes
/// past them stay.
pub fn encode_event_ack_reply(m: &EventAckReply, out: &mut [u8]) -> usize
    requires fitting { IsTrue (values_fit event_ack_reply_layout.rows (event_ack_reply_values m.now)) }
    requires room { 20 ≤ length out.old }
    ensures long { result ≡ 20 }
    ensures stands { EventAckReplyStands m.now out.new }
    ensures rest { drop 20 out.new ≡ drop 20 out.old }
{
    write(&EventAckReply::layout(), &m.values(), out);
    20
}
