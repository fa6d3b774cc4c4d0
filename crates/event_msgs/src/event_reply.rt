//! An event.
ghost use Rattle.std.specs.Prelude.{◌≡◌, ◌*◌, ◌≤◌, IsTrue, IfOk, MatchResult, Ok, Some, length, drop};
ghost use Rattle.mpi_layout.specs.Rows.{cut_from};
ghost use Rattle.event_msgs.specs.EventData.{data_tail};
ghost use Rattle.event_msgs.specs.EventReply.{EventReplyStands, event_reply_fit, event_reply_layout, event_reply_length, event_reply_refusal, event_reply_values};

use crate::event_data::{EventData, read_data, write_data};
use mpi_layout::{Fault, Layout, Row, Rule, fits, low, number, read, write};

// The length of the fixed part in bytes.
const FIXED: usize = 28;

// mpi2_ioc.h, MPI2_EVENT_NOTIFICATION_REPLY.
static EVENT_REPLY_ROWS: [Row; 15] = [
    number!(0x00, 2, "EventDataLength", Rule::Between(0, 25)),
    number!(0x02, 1, "MsgLength", Rule::Any),
    number!(0x03, 1, "Function", Rule::Is(0x07)),
    number!(0x04, 2, "Reserved", Rule::Any),
    number!(0x06, 1, "AckRequired", Rule::Any),
    number!(0x07, 1, "MsgFlags", Rule::Any),
    number!(0x08, 1, "VP_ID", Rule::Any),
    number!(0x09, 1, "VF_ID", Rule::Any),
    number!(0x0a, 2, "Reserved", Rule::Any),
    number!(0x0c, 2, "Reserved", Rule::Any),
    number!(0x0e, 2, "IOCStatus", Rule::Any),
    number!(0x10, 4, "IOCLogInfo", Rule::Any),
    number!(0x14, 2, "Event", Rule::Any),
    number!(0x16, 2, "Reserved", Rule::Any),
    number!(0x18, 4, "EventContext", Rule::Any),
];

/// An event (mpi2_ioc.h, MPI2_EVENT_NOTIFICATION_REPLY): 28 bytes and its data, 4 * EventDataLength
/// bytes.
#[derive(Clone, Copy, Debug, PartialEq, Eq)]
pub struct EventReply {
    /// The event data's length in dwords, from 0 to 25.
    pub event_data_length: u16,
    /// The reply's length in dwords. The data's length goes by EventDataLength alone.
    pub msg_length: u8,
    /// The message's function: 07, event notification.
    pub function: u8,
    /// Reserved; kept as it is.
    pub reserved_04: u16,
    /// Whether the controller asks for an acknowledgement: 1 where it does.
    pub ack_required: u8,
    /// Flags of the message.
    pub msg_flags: u8,
    /// The virtual port.
    pub vp_id: u8,
    /// The virtual function.
    pub vf_id: u8,
    /// Reserved; kept as it is.
    pub reserved_0a: u16,
    /// Reserved; kept as it is.
    pub reserved_0c: u16,
    /// The controller's status: a code in the low 15 bits, and 8000 where IOCLogInfo counts.
    pub ioc_status: u16,
    /// Further information on the status for a log.
    pub ioc_log_info: u32,
    /// The event: 001c is the SAS topology change list.
    pub event: u16,
    /// Reserved; kept as it is.
    pub reserved_16: u16,
    /// The event's context, for its acknowledgement.
    pub event_context: u32,
    /// The event's data.
    pub event_data: EventData,
}

impl EventReply {
    /// An event that has in each row 0 or the first number that the row's rule names, and no data.
    pub const BLANK: EventReply = EventReply {
        event_data_length: 0,
        msg_length: 0,
        function: 0x07,
        reserved_04: 0,
        ack_required: 0,
        msg_flags: 0,
        vp_id: 0,
        vf_id: 0,
        reserved_0a: 0,
        reserved_0c: 0,
        ioc_status: 0,
        ioc_log_info: 0,
        event: 0,
        reserved_16: 0,
        event_context: 0,
        event_data: EventData::Other { bytes: [0; 100] },
    };

    /// The layout of the fixed part: 15 rows, 28 bytes.
    pub fn layout() -> Layout<15>
        ensures { result ≡ event_reply_layout }
    {
        Layout::new(&EVENT_REPLY_ROWS, 28)
    }

    /// The fields' numbers in the layout's order.
    pub fn values(&self) -> [u64; 15]
        ensures { result ≡ event_reply_values self.now }
    {
        [
            u64::from(self.event_data_length),
            u64::from(self.msg_length),
            u64::from(self.function),
            u64::from(self.reserved_04),
            u64::from(self.ack_required),
            u64::from(self.msg_flags),
            u64::from(self.vp_id),
            u64::from(self.vf_id),
            u64::from(self.reserved_0a),
            u64::from(self.reserved_0c),
            u64::from(self.ioc_status),
            u64::from(self.ioc_log_info),
            u64::from(self.event),
            u64::from(self.reserved_16),
            u64::from(self.event_context),
        ]
    }

    // The event with no data whose fields are the low bytes of these numbers.
    fn from_values(values: &[u64; 15]) -> EventReply
        ensures { event_reply_values result ≡ cut_from event_reply_layout.rows values.now 0 }
    {
        EventReply {
            event_data_length: low!(values[0], 2),
            msg_length: low!(values[1], 1),
            function: low!(values[2], 1),
            reserved_04: low!(values[3], 2),
            ack_required: low!(values[4], 1),
            msg_flags: low!(values[5], 1),
            vp_id: low!(values[6], 1),
            vf_id: low!(values[7], 1),
            reserved_0a: low!(values[8], 2),
            reserved_0c: low!(values[9], 2),
            ioc_status: low!(values[10], 2),
            ioc_log_info: low!(values[11], 4),
            event: low!(values[12], 2),
            reserved_16: low!(values[13], 2),
            event_context: low!(values[14], 4),
            event_data: EventData::Other { bytes: [0; 100] },
        }
    }

    // The data's length in bytes.
    fn data_length(&self) -> usize
        ensures { result ≡ 4 * self.now.event_data_length }
    {
        4 * usize::from(self.event_data_length)
    }

    /// The event's length in bytes, 28 + 4 * EventDataLength.
    pub fn length(&self) -> usize
        ensures { result ≡ event_reply_length self.now }
    {
        FIXED + self.data_length()
    }

    /// The bytes of the data that no row reads: of a topology change list those behind its entries,
    /// of any other event all.
    pub fn tail_bytes(&self) -> &[u8]
        ensures { result.now ≡ data_tail (4 * self.now.event_data_length) self.now.event_data }
    {
        self.event_data.tail(self.data_length())
    }
}

/// Reads the event from the front of the bytes: the event that they stand for, or their refusal.
/// Bytes past the event's length play no part.
///
/// # Errors
/// In this order: `Short` where there are fewer than 28 bytes; `Field` with the least offset whose
/// row breaks its rule; `Short` where there are fewer than 28 + 4 * EventDataLength bytes; and for a
/// topology change list `Field` with offset 00 where EventDataLength is below 3, then `Field` with
/// offset 24 (hexadecimal) where 3 + NumEntries is above EventDataLength.
pub fn decode_event_reply(bytes: &[u8]) -> Result<EventReply, Fault>
    ensures read { MatchResult result (λ m. EventReplyStands m bytes.now)
        (λ fault. event_reply_refusal bytes.now ≡ Some fault) }
    ensures only { (m : EventReply) → EventReplyStands m bytes.now → result ≡ Ok m }
    ensures fitting { IfOk result (λ m. IsTrue (event_reply_fit m)) }
{
    let values = read(&EventReply::layout(), bytes)?;
    let mut m = EventReply::from_values(&values);
    let need = m.length();
    if bytes.len() < need {
        return Err(Fault::Short {
            need,
            have: bytes.len(),
        });
    }
    m.event_data = read_data(m.event, m.event_data_length, &bytes[FIXED..need])?;
    Ok(m)
}

/// Whether each field fits its row's width and rule, the data are those of the event and have room in
/// EventDataLength, and all past the data is 0, so that some bytes stand for the event.
pub fn event_reply_fits(m: &EventReply) -> bool
    ensures { result ≡ event_reply_fit m.now }
{
    fits(&EventReply::layout(), &m.values())
        && m.event_data.is_of(m.event)
        && m.event_data.fits(m.data_length())
}

/// Writes the event's 28 + 4 * EventDataLength bytes, from which it is read back, and gives their
/// number. The bytes past them stay.
pub fn encode_event_reply(m: &EventReply, out: &mut [u8]) -> usize
    requires fitting { IsTrue (event_reply_fit m.now) }
    requires room { event_reply_length m.now ≤ length out.old }
    ensures long { result ≡ event_reply_length m.now }
    ensures stands { EventReplyStands m.now out.new }
    ensures rest { drop (event_reply_length m.now) out.new
        ≡ drop (event_reply_length m.now) out.old }
{
    write(&EventReply::layout(), &m.values(), out);
    let length = m.length();
    write_data(&m.event_data, &mut out[FIXED..length]);
    length
}
