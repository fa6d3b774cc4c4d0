//! A SAS IO unit control reply.
ghost use Rattle.std.specs.Prelude.{◌≡◌, ◌≤◌, IsTrue, IfOk, MatchResult, Ok, Some, length, drop};
ghost use Rattle.mpi_layout.specs.Rows.{cut_from, first_fault, values_fit};
ghost use Rattle.ioc_msgs.specs.UnitControlReply.{UnitControlReplyStands, unit_control_reply_layout, unit_control_reply_values};

use mpi_layout::{Fault, Layout, Row, Rule, fits, low, number, read, write};

// mpi2_sas.h, MPI2_SAS_IOUNIT_CONTROL_REPLY.
static UNIT_CONTROL_REPLY_ROWS: [Row; 13] = [
    number!(0x00, 1, "Operation", Rule::Any),
    number!(0x01, 1, "Reserved", Rule::Any),
    number!(0x02, 1, "MsgLength", Rule::Between(5, 32)),
    number!(0x03, 1, "Function", Rule::Is(0x1b)),
    number!(0x04, 2, "DevHandle", Rule::Any),
    number!(0x06, 1, "IOCParameter", Rule::Any),
    number!(0x07, 1, "MsgFlags", Rule::Any),
    number!(0x08, 1, "VP_ID", Rule::Any),
    number!(0x09, 1, "VF_ID", Rule::Any),
    number!(0x0a, 2, "Reserved", Rule::Any),
    number!(0x0c, 2, "Reserved", Rule::Any),
    number!(0x0e, 2, "IOCStatus", Rule::Any),
    number!(0x10, 4, "IOCLogInfo", Rule::Any),
];

/// A SAS IO unit control reply (mpi2_sas.h, MPI2_SAS_IOUNIT_CONTROL_REPLY): how the operation
/// ended. 20 bytes.
#[derive(Clone, Copy, Debug, PartialEq, Eq)]
pub struct UnitControlReply {
    /// The operation, as in the request.
    pub operation: u8,
    /// Reserved; kept as it is.
    pub reserved_01: u8,
    /// The reply's length in dwords, from 5 to 32.
    pub msg_length: u8,
    /// The message's function: 1b, SAS IO unit control.
    pub function: u8,
    /// The device's handle.
    pub dev_handle: u16,
    /// Which parameter of the controller was meant.
    pub ioc_parameter: u8,
    /// Flags of the message.
    pub msg_flags: u8,
    /// The virtual port.
    pub vp_id: u8,
    /// The virtual function.
    pub vf_id: u8,
    /// Reserved; kept as it is.
    pub reserved_0a: u16,
    /// Reserved; kept as it is.
    pub reserved_0c: u16,
    /// The controller's status: a code in the low 15 bits, and 8000 where IOCLogInfo counts.
    pub ioc_status: u16,
    /// Further information on the status for a log.
    pub ioc_log_info: u32,
}

impl UnitControlReply {
    /// A reply that has in each row 0 or the first number that the row's rule names.
    pub const BLANK: UnitControlReply = UnitControlReply {
        operation: 0,
        reserved_01: 0,
        msg_length: 5,
        function: 0x1b,
        dev_handle: 0,
        ioc_parameter: 0,
        msg_flags: 0,
        vp_id: 0,
        vf_id: 0,
        reserved_0a: 0,
        reserved_0c: 0,
        ioc_status: 0,
        ioc_log_info: 0,
    };

    /// The layout: 13 rows, 20 bytes.
    pub fn layout() -> Layout<13>
        ensures { result ≡ unit_control_reply_layout }
    {
        Layout::new(&UNIT_CONTROL_REPLY_ROWS, 20)
    }

    /// The fields' numbers in the layout's order.
    pub fn values(&self) -> [u64; 13]
        ensures { result ≡ unit_control_reply_values self.now }
    {
        [
            u64::from(self.operation),
            u64::from(self.reserved_01),
            u64::from(self.msg_length),
            u64::from(self.function),
            u64::from(self.dev_handle),
            u64::from(self.ioc_parameter),
            u64::from(self.msg_flags),
            u64::from(self.vp_id),
            u64::from(self.vf_id),
            u64::from(self.reserved_0a),
            u64::from(self.reserved_0c),
            u64::from(self.ioc_status),
            u64::from(self.ioc_log_info),
        ]
    }

    // The message whose fields are the low bytes of these numbers.
    fn from_values(values: &[u64; 13]) -> UnitControlReply
        ensures { unit_control_reply_values result ≡ cut_from unit_control_reply_layout.rows values.now 0 }
    {
        UnitControlReply {
            operation: low!(values[0], 1),
            reserved_01: low!(values[1], 1),
            msg_length: low!(values[2], 1),
            function: low!(values[3], 1),
            dev_handle: low!(values[4], 2),
            ioc_parameter: low!(values[5], 1),
            msg_flags: low!(values[6], 1),
            vp_id: low!(values[7], 1),
            vf_id: low!(values[8], 1),
            reserved_0a: low!(values[9], 2),
            reserved_0c: low!(values[10], 2),
            ioc_status: low!(values[11], 2),
            ioc_log_info: low!(values[12], 4),
        }
    }
}

/// Reads the message from the front of the bytes: the message that they stand for, or their first
/// fault. Bytes past the message play no part.
///
/// # Errors
/// `Short` exactly where there are fewer than 20 bytes; else `Field` with the least offset whose
/// row breaks its rule.
pub fn decode_unit_control_reply(bytes: &[u8]) -> Result<UnitControlReply, Fault>
    ensures read { MatchResult result (λ m. UnitControlReplyStands m bytes.now)
        (λ fault. first_fault unit_control_reply_layout bytes.now ≡ Some fault) }
    ensures only { (m : UnitControlReply) → UnitControlReplyStands m bytes.now → result ≡ Ok m }
    ensures fitting { IfOk result (λ m. IsTrue (values_fit unit_control_reply_layout.rows (unit_control_reply_values m))) }
{
    let values = read(&UnitControlReply::layout(), bytes)?;
    Ok(UnitControlReply::from_values(&values))
}

/// Whether each field fits its row's width and rule, so that some bytes stand for the message.
pub fn unit_control_reply_fits(m: &UnitControlReply) -> bool
    ensures { result ≡ values_fit unit_control_reply_layout.rows (unit_control_reply_values m.now) }
{
    fits(&UnitControlReply::layout(), &m.values())
}

/// Writes the message's 20 bytes, from which it is read back, and gives their number. The bytes
/// past them stay.
pub fn encode_unit_control_reply(m: &UnitControlReply, out: &mut [u8]) -> usize
    requires fitting { IsTrue (values_fit unit_control_reply_layout.rows (unit_control_reply_values m.now)) }
    requires room { 20 ≤ length out.old }
    ensures long { result ≡ 20 }
    ensures stands { UnitControlReplyStands m.now out.new }
    ensures rest { drop 20 out.new ≡ drop 20 out.old }
{
    write(&UnitControlReply::layout(), &m.values(), out);
    20
}
