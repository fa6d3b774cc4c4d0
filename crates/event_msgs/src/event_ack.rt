//! An event acknowledgement.
ghost use Rattle.std.specs.Prelude.{◌≡◌, ◌≤◌, IsTrue, IfOk, MatchResult, Ok, Some, length, drop};
ghost use Rattle.mpi_layout.specs.Rows.{cut_from, first_fault, values_fit};
ghost use Rattle.event_msgs.specs.EventAck.{EventAckStands, event_ack_layout, event_ack_values};

use mpi_layout::{Fault, Layout, Row, Rule, fits, low, number, read, write};

// mpi2_ioc.h, MPI2_EVENT_ACK_REQUEST.
static EVENT_ACK_ROWS: [Row; 12] = [
    number!(0x00, 2, "Reserved", Rule::Zero),
    number!(0x02, 1, "ChainOffset", Rule::Zero),
    number!(0x03, 1, "Function", Rule::Is(0x08)),
    number!(0x04, 2, "Reserved", Rule::Zero),
    number!(0x06, 1, "Reserved", Rule::Zero),
    number!(0x07, 1, "MsgFlags", Rule::Zero),
    number!(0x08, 1, "VP_ID", Rule::Zero),
    number!(0x09, 1, "VF_ID", Rule::Zero),
    number!(0x0a, 2, "Reserved", Rule::Zero),
    number!(0x0c, 2, "Event", Rule::Any),
    number!(0x0e, 2, "Reserved", Rule::Zero),
    number!(0x10, 4, "EventContext", Rule::Any),
];

/// An event acknowledgement (mpi2_ioc.h, MPI2_EVENT_ACK_REQUEST): says that the host has an event.
/// 20 bytes.
#[derive(Clone, Copy, Debug, PartialEq, Eq)]
pub struct EventAck {
    /// Reserved, 0.
    pub reserved_00: u16,
    /// Where a chain element lies, in dwords; 0 for none.
    pub chain_offset: u8,
    /// The message's function: 08, event acknowledgement.
    pub function: u8,
    /// Reserved, 0.
    pub reserved_04: u16,
    /// Reserved, 0.
    pub reserved_06: u8,
    /// Flags of the message, 0.
    pub msg_flags: u8,
    /// The virtual port, 0.
    pub vp_id: u8,
    /// The virtual function, 0.
    pub vf_id: u8,
    /// Reserved, 0.
    pub reserved_0a: u16,
    /// The event that is acknowledged.
    pub event: u16,
    /// Reserved, 0.
    pub reserved_0e: u16,
    /// Its context, as the event had it.
    pub event_context: u32,
}

impl EventAck {
    /// A request that has in each row 0 or the first number that the row's rule names.
    pub const BLANK: EventAck = EventAck {
        reserved_00: 0,
        chain_offset: 0,
        function: 0x08,
        reserved_04: 0,
        reserved_06: 0,
        msg_flags: 0,
        vp_id: 0,
        vf_id: 0,
        reserved_0a: 0,
        event: 0,
        reserved_0e: 0,
        event_context: 0,
    };

    /// The layout: 12 rows, 20 bytes.
    pub fn layout() -> Layout<12>
        ensures { result ≡ event_ack_layout }
    {
        Layout::new(&EVENT_ACK_ROWS, 20)
    }

    /// The fields' numbers in the layout's order.
    pub fn values(&self) -> [u64; 12]
        ensures { result ≡ event_ack_values self.now }
    {
        [
            u64::from(self.reserved_00),
            u64::from(self.chain_offset),
            u64::from(self.function),
            u64::from(self.reserved_04),
            u64::from(self.reserved_06),
            u64::from(self.msg_flags),
            u64::from(self.vp_id),
            u64::from(self.vf_id),
            u64::from(self.reserved_0a),
            u64::from(self.event),
            u64::from(self.reserved_0e),
            u64::from(self.event_context),
        ]
    }

    // The message whose fields are the low bytes of these numbers.
    fn from_values(values: &[u64; 12]) -> EventAck
        ensures { event_ack_values result ≡ cut_from event_ack_layout.rows values.now 0 }
    {
        EventAck {
            reserved_00: low!(values[0], 2),
            chain_offset: low!(values[1], 1),
            function: low!(values[2], 1),
            reserved_04: low!(values[3], 2),
            reserved_06: low!(values[4], 1),
            msg_flags: low!(values[5], 1),
            vp_id: low!(values[6], 1),
            vf_id: low!(values[7], 1),
            reserved_0a: low!(values[8], 2),
            event: low!(values[9], 2),
            reserved_0e: low!(values[10], 2),
            event_context: low!(values[11], 4),
        }
    }
}

/// Reads the message from the front of the bytes: the message that they stand for, or their first
/// fault. Bytes past the message play no part.
///
/// # Errors
/// `Short` exactly where there are fewer than 20 bytes; else `Field` with the least offset whose
/// row breaks its rule.
pub fn decode_event_ack(bytes: &[u8]) -> Result<EventAck, Fault>
    ensures read { MatchResult result (λ m. EventAckStands m bytes.now)
        (λ fault. first_fault event_ack_layout bytes.now ≡ Some fault) }
    ensures only { (m : EventAck) → EventAckStands m bytes.now → result ≡ Ok m }
    ensures fitting { IfOk result (λ m. IsTrue (values_fit event_ack_layout.rows (event_ack_values m))) }
{
    let values = read(&EventAck::layout(), bytes)?;
    Ok(EventAck::from_values(&values))
}

/// Whether each field fits its row's width and rule, so that some bytes stand for the message.
pub fn event_ack_fits(m: &EventAck) -> bool
    ensures { result ≡ values_fit event_ack_layout.rows (event_ack_values m.now) }
{
    fits(&EventAck::layout(), &m.values())
}

/// Writes the message's 20 bytes, from which it is read back, and gives their number. The bytes
/// past them stay.
pub fn encode_event_ack(m: &EventAck, out: &mut [u8]) -> usize
    requires fitting { IsTrue (values_fit event_ack_layout.rows (event_ack_values m.now)) }
    requires room { 20 ≤ length out.old }
    ensures long { result ≡ 20 }
    ensures stands { EventAckStands m.now out.new }
    ensures rest { drop 20 out.new ≡ drop 20 out.old }
{
    write(&EventAck::layout(), &m.values(), out);
    20
}
