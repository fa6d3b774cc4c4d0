//! An event notification request.
ghost use Rattle.std.specs.Prelude.{◌≡◌, ◌≤◌, IsTrue, IfOk, MatchResult, Ok, Some, length, drop};
ghost use Rattle.mpi_layout.specs.Rows.{cut_from, first_fault, values_fit};
ghost use Rattle.event_msgs.specs.EventAsk.{EventAskStands, event_ask_layout, event_ask_values};

use mpi_layout::{Fault, Layout, Row, Rule, fits, low, number, read, write};

// mpi2_ioc.h, MPI2_EVENT_NOTIFICATION_REQUEST.
static EVENT_ASK_ROWS: [Row; 17] = [
    number!(0x00, 2, "Reserved", Rule::Zero),
    number!(0x02, 1, "ChainOffset", Rule::Zero),
    number!(0x03, 1, "Function", Rule::Is(0x07)),
    number!(0x04, 2, "Reserved", Rule::Zero),
    number!(0x06, 1, "Reserved", Rule::Zero),
    number!(0x07, 1, "MsgFlags", Rule::Zero),
    number!(0x08, 1, "VP_ID", Rule::Zero),
    number!(0x09, 1, "VF_ID", Rule::Zero),
    number!(0x0a, 2, "Reserved", Rule::Zero),
    number!(0x0c, 8, "Reserved", Rule::Zero),
    number!(0x14, 4, "EventMasks0", Rule::Any),
    number!(0x18, 4, "EventMasks1", Rule::Any),
    number!(0x1c, 4, "EventMasks2", Rule::Any),
    number!(0x20, 4, "EventMasks3", Rule::Any),
    number!(0x24, 2, "SASBroadcastPrimitiveMasks", Rule::Any),
    number!(0x26, 2, "SASNotifyPrimitiveMasks", Rule::Any),
    number!(0x28, 4, "Reserved", Rule::Zero),
];

/// An event notification request (mpi2_ioc.h, MPI2_EVENT_NOTIFICATION_REQUEST): asks the controller
/// for events from now on. 44 bytes.
#[derive(Clone, Copy, Debug, PartialEq, Eq)]
pub struct EventAsk {
    /// Reserved, 0.
    pub reserved_00: u16,
    /// Where a chain element lies, in dwords; 0 for none.
    pub chain_offset: u8,
    /// The message's function: 07, event notification.
    pub function: u8,
    /// Reserved, 0.
    pub reserved_04: u16,
    /// Reserved, 0.
    pub reserved_06: u8,
    /// Flags of the message, 0.
    pub msg_flags: u8,
    /// The virtual port, 0.
    pub vp_id: u8,
    /// The virtual function, 0.
    pub vf_id: u8,
    /// Reserved, 0.
    pub reserved_0a: u16,
    /// Reserved, 0.
    pub reserved_0c: u64,
    /// The events 0 to 31 that are held back, a bit each.
    pub event_masks0: u32,
    /// The events 32 to 63 that are held back, a bit each.
    pub event_masks1: u32,
    /// The events 64 to 95 that are held back, a bit each.
    pub event_masks2: u32,
    /// The events 96 to 127 that are held back, a bit each.
    pub event_masks3: u32,
    /// The SAS broadcast primitives that are held back, a bit each.
    pub sas_broadcast_primitive_masks: u16,
    /// The SAS notify primitives that are held back, a bit each.
    pub sas_notify_primitive_masks: u16,
    /// Reserved, 0.
    pub reserved_28: u32,
}

impl EventAsk {
    /// A request that has in each row 0 or the first number that the row's rule names.
    pub const BLANK: EventAsk = EventAsk {
        reserved_00: 0,
        chain_offset: 0,
        function: 0x07,
        reserved_04: 0,
        reserved_06: 0,
        msg_flags: 0,
        vp_id: 0,
        vf_id: 0,
        reserved_0a: 0,
        reserved_0c: 0,
        event_masks0: 0,
        event_masks1: 0,
        event_masks2: 0,
        event_masks3: 0,
        sas_broadcast_primitive_masks: 0,
        sas_notify_primitive_masks: 0,
        reserved_28: 0,
    };

    /// The layout: 17 rows, 44 bytes.
    pub fn layout() -> Layout<17>
        ensures { result ≡ event_ask_layout }
    {
        Layout::new(&EVENT_ASK_ROWS, 44)
    }

    /// The fields' numbers in the layout's order.
    pub fn values(&self) -> [u64; 17]
        ensures { result ≡ event_ask_values self.now }
    {
        [
            u64::from(self.reserved_00),
            u64::from(self.chain_offset),
            u64::from(self.function),
            u64::from(self.reserved_04),
            u64::from(self.reserved_06),
            u64::from(self.msg_flags),
            u64::from(self.vp_id),
            u64::from(self.vf_id),
            u64::from(self.reserved_0a),
            self.reserved_0c,
            u64::from(self.event_masks0),
            u64::from(self.event_masks1),
            u64::from(self.event_masks2),
            u64::from(self.event_masks3),
            u64::from(self.sas_broadcast_primitive_masks),
            u64::from(self.sas_notify_primitive_masks),
            u64::from(self.reserved_28),
        ]
    }

    // The message whose fields are the low bytes of these numbers.
    fn from_values(values: &[u64; 17]) -> EventAsk
        ensures { event_ask_values result ≡ cut_from event_ask_layout.rows values.now 0 }
    {
        EventAsk {
            reserved_00: low!(values[0], 2),
            chain_offset: low!(values[1], 1),
            function: low!(values[2], 1),
            reserved_04: low!(values[3], 2),
            reserved_06: low!(values[4], 1),
            msg_flags: low!(values[5], 1),
            vp_id: low!(values[6], 1),
            vf_id: low!(values[7], 1),
            reserved_0a: low!(values[8], 2),
            reserved_0c: low!(values[9], 8),
            event_masks0: low!(values[10], 4),
            event_masks1: low!(values[11], 4),
            event_masks2: low!(values[12], 4),
            event_masks3: low!(values[13], 4),
            sas_broadcast_primitive_masks: low!(values[14], 2),
            sas_notify_primitive_masks: low!(values[15], 2),
            reserved_28: low!(values[16], 4),
        }
    }
}

/// Reads the message from the front of the bytes: the message that they stand for, or their first
/// fault. Bytes past the message play no part.
///
/// # Errors
/// `Short` exactly where there are fewer than 44 bytes; else `Field` with the least offset whose
/// row breaks its rule.
pub fn decode_event_ask(bytes: &[u8]) -> Result<EventAsk, Fault>
    ensures read { MatchResult result (λ m. EventAskStands m bytes.now)
        (λ fault. first_fault event_ask_layout bytes.now ≡ Some fault) }
    ensures only { (m : EventAsk) → EventAskStands m bytes.now → result ≡ Ok m }
    ensures fitting { IfOk result (λ m. IsTrue (values_fit event_ask_layout.rows (event_ask_values m))) }
{
    let values = read(&EventAsk::layout(), bytes)?;
    Ok(EventAsk::from_values(&values))
}

/// Whether each field fits its row's width and rule, so that some bytes stand for the message.
pub fn event_ask_fits(m: &EventAsk) -> bool
    ensures { result ≡ values_fit event_ask_layout.rows (event_ask_values m.now) }
{
    fits(&EventAsk::layout(), &m.values())
}

/// Writes the message's 44 bytes, from which it is read back, and gives their number. The bytes
/// past them stay.
pub fn encode_event_ask(m: &EventAsk, out: &mut [u8]) -> usize
    requires fitting { IsTrue (values_fit event_ask_layout.rows (event_ask_values m.now)) }
    requires room { 44 ≤ length out.old }
    ensures long { result ≡ 44 }
    ensures stands { EventAskStands m.now out.new }
    ensures rest { drop 44 out.new ≡ drop 44 out.old }
{
    write(&EventAsk::layout(), &m.values(), out);
    44
}
