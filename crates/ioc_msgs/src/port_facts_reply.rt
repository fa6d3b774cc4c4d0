//! A Port Facts reply.
ghost use Rattle.std.specs.Prelude.{◌≡◌, ◌≤◌, IsTrue, IfOk, MatchResult, Ok, Some, length, drop};
ghost use Rattle.mpi_layout.specs.Rows.{cut_from, first_fault, values_fit};
ghost use Rattle.ioc_msgs.specs.PortFactsReply.{PortFactsReplyStands, port_facts_reply_layout, port_facts_reply_values};

use mpi_layout::{Fault, Layout, Row, Rule, fits, low, number, read, write};

// mpi2_ioc.h, MPI2_PORT_FACTS_REPLY.
static PORT_FACTS_REPLY_ROWS: [Row; 17] = [
    number!(0x00, 2, "Reserved", Rule::Any),
    number!(0x02, 1, "MsgLength", Rule::Between(7, 32)),
    number!(0x03, 1, "Function", Rule::Is(0x05)),
    number!(0x04, 2, "Reserved", Rule::Any),
    number!(0x06, 1, "PortNumber", Rule::Any),
    number!(0x07, 1, "MsgFlags", Rule::Any),
    number!(0x08, 1, "VP_ID", Rule::Any),
    number!(0x09, 1, "VF_ID", Rule::Any),
    number!(0x0a, 2, "Reserved", Rule::Any),
    number!(0x0c, 2, "Reserved", Rule::Any),
    number!(0x0e, 2, "IOCStatus", Rule::Any),
    number!(0x10, 4, "IOCLogInfo", Rule::Any),
    number!(0x14, 1, "Reserved", Rule::Any),
    number!(0x15, 1, "PortType", Rule::Any),
    number!(0x16, 2, "Reserved", Rule::Any),
    number!(0x18, 2, "MaxPostedCmdBuffers", Rule::Any),
    number!(0x1a, 2, "Reserved", Rule::Any),
];

/// A Port Facts reply (mpi2_ioc.h, MPI2_PORT_FACTS_REPLY): what a port is. 28 bytes.
#[derive(Clone, Copy, Debug, PartialEq, Eq)]
pub struct PortFactsReply {
    /// Reserved; kept as it is.
    pub reserved_00: u16,
    /// The reply's length in dwords, from 7 to 32.
    pub msg_length: u8,
    /// The message's function: 05, Port Facts.
    pub function: u8,
    /// Reserved; kept as it is.
    pub reserved_04: u16,
    /// The port's number.
    pub port_number: u8,
    /// Flags of the message.
    pub msg_flags: u8,
    /// The virtual port.
    pub vp_id: u8,
    /// The virtual function.
    pub vf_id: u8,
    /// Reserved; kept as it is.
    pub reserved_0a: u16,
    /// Reserved; kept as it is.
    pub reserved_0c: u16,
    /// The controller's status: a code in the low 15 bits, and 8000 where IOCLogInfo counts.
    pub ioc_status: u16,
    /// Further information on the status for a log.
    pub ioc_log_info: u32,
    /// Reserved; kept as it is.
    pub reserved_14: u8,
    /// What the port is: 30 is a physical SAS port.
    pub port_type: u8,
    /// Reserved; kept as it is.
    pub reserved_16: u16,
    /// The most command buffers that a target posts.
    pub max_posted_cmd_buffers: u16,
    /// Reserved; kept as it is.
    pub reserved_1a: u16,
}

impl PortFactsReply {
    /// A reply that has in each row 0 or the first number that the row's rule names.
    pub const BLANK: PortFactsReply = PortFactsReply {
        reserved_00: 0,
        msg_length: 7,
        function: 0x05,
        reserved_04: 0,
        port_number: 0,
        msg_flags: 0,
        vp_id: 0,
        vf_id: 0,
        reserved_0a: 0,
        reserved_0c: 0,
        ioc_status: 0,
        ioc_log_info: 0,
        reserved_14: 0,
        port_type: 0,
        reserved_16: 0,
        max_posted_cmd_buffers: 0,
        reserved_1a: 0,
    };

    /// The layout: 17 rows, 28 bytes.
    pub fn layout() -> Layout<17>
        ensures { result ≡ port_facts_reply_layout }
    {
        Layout::new(&PORT_FACTS_REPLY_ROWS, 28)
    }

    /// The fields' numbers in the layout's order.
    pub fn values(&self) -> [u64; 17]
        ensures { result ≡ port_facts_reply_values self.now }
    {
        [
            u64::from(self.reserved_00),
            u64::from(self.msg_length),
            u64::from(self.function),
            u64::from(self.reserved_04),
            u64::from(self.port_number),
            u64::from(self.msg_flags),
            u64::from(self.vp_id),
            u64::from(self.vf_id),
            u64::from(self.reserved_0a),
            u64::from(self.reserved_0c),
            u64::from(self.ioc_status),
            u64::from(self.ioc_log_info),
            u64::from(self.reserved_14),
            u64::from(self.port_type),
            u64::from(self.reserved_16),
            u64::from(self.max_posted_cmd_buffers),
            u64::from(self.reserved_1a),
        ]
    }

    // The message whose fields are the low bytes of these numbers.
    fn from_values(values: &[u64; 17]) -> PortFactsReply
        ensures { port_facts_reply_values result ≡ cut_from port_facts_reply_layout.rows values.now 0 }
    {
        PortFactsReply {
            reserved_00: low!(values[0], 2),
            msg_length: low!(values[1], 1),
            function: low!(values[2], 1),
            reserved_04: low!(values[3], 2),
            port_number: low!(values[4], 1),
            msg_flags: low!(values[5], 1),
            vp_id: low!(values[6], 1),
            vf_id: low!(values[7], 1),
            reserved_0a: low!(values[8], 2),
            reserved_0c: low!(values[9], 2),
            ioc_status: low!(values[10], 2),
            ioc_log_info: low!(values[11], 4),
            reserved_14: low!(values[12], 1),
            port_type: low!(values[13], 1),
            reserved_16: low!(values[14], 2),
            max_posted_cmd_buffers: low!(values[15], 2),
            reserved_1a: low!(values[16], 2),
        }
    }
}

/// Reads the message from the front of the bytes: the message that they stand for, or their first
/// fault. Bytes past the message play no part.
///
/// # Errors
/// `Short` exactly where there are fewer than 28 bytes; else `Field` with the least offset whose
/// row breaks its rule.
pub fn decode_port_facts_reply(bytes: &[u8]) -> Result<PortFactsReply, Fault>
    ensures read { MatchResult result (λ m. PortFactsReplyStands m bytes.now)
        (λ fault. first_fault port_facts_reply_layout bytes.now ≡ Some fault) }
    ensures only { (m : PortFactsReply) → PortFactsReplyStands m bytes.now → result ≡ Ok m }
    ensures fitting { IfOk result (λ m. IsTrue (values_fit port_facts_reply_layout.rows (port_facts_reply_values m))) }
{
    let values = read(&PortFactsReply::layout(), bytes)?;
    Ok(PortFactsReply::from_values(&values))
}

/// Whether each field fits its row's width and rule, so that some bytes stand for the message.
pub fn port_facts_reply_fits(m: &PortFactsReply) -> bool
    ensures { result ≡ values_fit port_facts_reply_layout.rows (port_facts_reply_values m.now) }
{
    fits(&PortFactsReply::layout(), &m.values())
}

/// Writes the message's 28 bytes, from which it is read back, and gives their number. The bytes
/// past them stay.
pub fn encode_port_facts_reply(m: &PortFactsReply, out: &mut [u8]) -> usize
    requires fitting { IsTrue (values_fit port_facts_reply_layout.rows (port_facts_reply_values m.now)) }
    requires room { 28 ≤ length out.old }
    ensures long { result ≡ 28 }
    ensures stands { PortFactsReplyStands m.now out.new }
    ensures rest { drop 28 out.new ≡ drop 28 out.old }
{
    write(&PortFactsReply::layout(), &m.values(), out);
    28
}
