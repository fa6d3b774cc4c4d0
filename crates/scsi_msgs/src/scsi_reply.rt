//! A SCSI IO reply.
ghost use Rattle.std.specs.Prelude.{◌≡◌, ◌-◌, ◌≤◌, IsTrue, IfOk, MatchResult, Ok, Some, length, drop, take};
ghost use Rattle.mpi_layout.specs.Rows.{cut_from};
ghost use Rattle.scsi_msgs.specs.ScsiReply.{ScsiReplyStands, scsi_reply_fit, scsi_reply_layout, scsi_reply_length, scsi_reply_refusal, scsi_reply_values};

use mpi_layout::{Fault, Layout, Row, Rule, fits, is_zero_from, low, number, padded, read, write};

// The length of the fixed part in bytes.
const FIXED: usize = 40;

// mpi2_init.h, MPI2_SCSI_IO_REPLY.
static SCSI_REPLY_ROWS: [Row; 19] = [
    number!(0x00, 2, "DevHandle", Rule::Any),
    number!(0x02, 1, "MsgLength", Rule::Between(10, 32)),
    number!(0x03, 1, "Function", Rule::Is(0x00)),
    number!(0x04, 2, "Reserved", Rule::Any),
    number!(0x06, 1, "Reserved", Rule::Any),
    number!(0x07, 1, "MsgFlags", Rule::Any),
    number!(0x08, 1, "VP_ID", Rule::Any),
    number!(0x09, 1, "VF_ID", Rule::Any),
    number!(0x0a, 2, "Reserved", Rule::Any),
    number!(0x0c, 1, "SCSIStatus", Rule::Any),
    number!(0x0d, 1, "SCSIState", Rule::Any),
    number!(0x0e, 2, "IOCStatus", Rule::Any),
    number!(0x10, 4, "IOCLogInfo", Rule::Any),
    number!(0x14, 4, "TransferCount", Rule::Any),
    number!(0x18, 4, "SenseCount", Rule::Any),
    number!(0x1c, 4, "ResponseInfo", Rule::Any),
    number!(0x20, 2, "TaskTag", Rule::Any),
    number!(0x22, 2, "SCSIStatusQualifier", Rule::Any),
    number!(0x24, 4, "BidirectionalTransferCount", Rule::Any),
];

/// A SCSI IO reply (mpi2_init.h, MPI2_SCSI_IO_REPLY): how a command to a disk ended. 40
/// bytes and a tail, 4 * MsgLength bytes in all.
#[derive(Clone, Copy, Debug, PartialEq, Eq)]
pub struct ScsiReply {
    /// The device handle of the disk.
    pub dev_handle: u16,
    /// The reply's length in dwords, from 10 to 32.
    pub msg_length: u8,
    /// The message's function: 00, SCSI IO.
    pub function: u8,
    /// Reserved; kept as it is.
    pub reserved_04: u16,
    /// Reserved; kept as it is.
    pub reserved_06: u8,
    /// Flags of the message.
    pub msg_flags: u8,
    /// The virtual port.
    pub vp_id: u8,
    /// The virtual function.
    pub vf_id: u8,
    /// Reserved; kept as it is.
    pub reserved_0a: u16,
    /// The SCSI status that the disk gave: 00 GOOD, 02 CHECK CONDITION.
    pub scsi_status: u8,
    /// What the controller has to say of the command: bit 0 is set where there is sense.
    pub scsi_state: u8,
    /// The controller's status: a code in the low 15 bits, and 8000 where IOCLogInfo counts.
    pub ioc_status: u16,
    /// Further information on the status for a log.
    pub ioc_log_info: u32,
    /// How many data bytes were moved.
    pub transfer_count: u32,
    /// How many sense bytes lie in the sense buffer.
    pub sense_count: u32,
    /// The disk's response information.
    pub response_info: u32,
    /// The command's tag.
    pub task_tag: u16,
    /// The status qualifier that the disk gave.
    pub scsi_status_qualifier: u16,
    /// How many bytes of the second data were moved.
    pub bidirectional_transfer_count: u32,
    /// The bytes from 40 up to the reply's length, and 0 past them.
    pub tail: [u8; 88],
}

impl ScsiReply {
    /// A reply that has in each row 0 or the first number that the row's rule names, and no tail.
    pub const BLANK: ScsiReply = ScsiReply {
        dev_handle: 0,
        msg_length: 10,
        function: 0x00,
        reserved_04: 0,
        reserved_06: 0,
        msg_flags: 0,
        vp_id: 0,
        vf_id: 0,
        reserved_0a: 0,
        scsi_status: 0,
        scsi_state: 0,
        ioc_status: 0,
        ioc_log_info: 0,
        transfer_count: 0,
        sense_count: 0,
        response_info: 0,
        task_tag: 0,
        scsi_status_qualifier: 0,
        bidirectional_transfer_count: 0,
        tail: [0; 88],
    };

    /// The layout of the fixed part: 19 rows, 40 bytes.
    pub fn layout() -> Layout<19>
        ensures { result ≡ scsi_reply_layout }
    {
        Layout::new(&SCSI_REPLY_ROWS, 40)
    }

    /// The fields' numbers in the layout's order.
    pub fn values(&self) -> [u64; 19]
        ensures { result ≡ scsi_reply_values self.now }
    {
        [
            u64::from(self.dev_handle),
            u64::from(self.msg_length),
            u64::from(self.function),
            u64::from(self.reserved_04),
            u64::from(self.reserved_06),
            u64::from(self.msg_flags),
            u64::from(self.vp_id),
            u64::from(self.vf_id),
            u64::from(self.reserved_0a),
            u64::from(self.scsi_status),
            u64::from(self.scsi_state),
            u64::from(self.ioc_status),
            u64::from(self.ioc_log_info),
            u64::from(self.transfer_count),
            u64::from(self.sense_count),
            u64::from(self.response_info),
            u64::from(self.task_tag),
            u64::from(self.scsi_status_qualifier),
            u64::from(self.bidirectional_transfer_count),
        ]
    }

    // The reply with no tail whose fields are the low bytes of these numbers.
    fn from_values(values: &[u64; 19]) -> ScsiReply
        ensures { scsi_reply_values result ≡ cut_from scsi_reply_layout.rows values.now 0 }
    {
        ScsiReply {
            dev_handle: low!(values[0], 2),
            msg_length: low!(values[1], 1),
            function: low!(values[2], 1),
            reserved_04: low!(values[3], 2),
            reserved_06: low!(values[4], 1),
            msg_flags: low!(values[5], 1),
            vp_id: low!(values[6], 1),
            vf_id: low!(values[7], 1),
            reserved_0a: low!(values[8], 2),
            scsi_status: low!(values[9], 1),
            scsi_state: low!(values[10], 1),
            ioc_status: low!(values[11], 2),
            ioc_log_info: low!(values[12], 4),
            transfer_count: low!(values[13], 4),
            sense_count: low!(values[14], 4),
            response_info: low!(values[15], 4),
            task_tag: low!(values[16], 2),
            scsi_status_qualifier: low!(values[17], 2),
            bidirectional_transfer_count: low!(values[18], 4),
            tail: [0; 88],
        }
    }

    /// The reply's length in bytes, 4 * MsgLength.
    pub fn length(&self) -> usize
        ensures { result ≡ scsi_reply_length self.now }
    {
        4 * usize::from(self.msg_length)
    }

    /// The bytes of the tail that the reply has: those from 40 up to its length.
    pub fn tail_bytes(&self) -> &[u8]
        ensures { result.now ≡ take (scsi_reply_length self.now - 40) self.now.tail }
    {
        let count = self.length().saturating_sub(FIXED);
        &self.tail[..count.min(self.tail.len())]
    }
}

/// Reads the reply from the front of the bytes: the reply that they stand for, or their refusal.
/// Bytes past the reply's length play no part.
///
/// # Errors
/// In this order: `Short` where there are fewer than 40 bytes; `Field` with the least offset whose
/// row breaks its rule; `Short` where there are fewer than 4 * MsgLength bytes.
pub fn decode_scsi_reply(bytes: &[u8]) -> Result<ScsiReply, Fault>
    ensures read { MatchResult result (λ m. ScsiReplyStands m bytes.now)
        (λ fault. scsi_reply_refusal bytes.now ≡ Some fault) }
    ensures only { (m : ScsiReply) → ScsiReplyStands m bytes.now → result ≡ Ok m }
    ensures fitting { IfOk result (λ m. IsTrue (scsi_reply_fit m)) }
{
    let values = read(&ScsiReply::layout(), bytes)?;
    let mut m = ScsiReply::from_values(&values);
    let need = m.length();
    if bytes.len() < need {
        return Err(Fault::Short {
            need,
            have: bytes.len(),
        });
    }
    m.tail = padded(&bytes[FIXED..need]);
    Ok(m)
}

/// Whether each field fits its row's width and rule, and the tail is 0 past the reply's length, so
/// that some bytes stand for the reply.
pub fn scsi_reply_fits(m: &ScsiReply) -> bool
    ensures { result ≡ scsi_reply_fit m.now }
{
    let past = m.length().saturating_sub(FIXED);
    fits(&ScsiReply::layout(), &m.values()) && is_zero_from(&m.tail, past)
}

/// Writes the reply's 4 * MsgLength bytes, from which it is read back, and gives their number. The
/// bytes past them stay.
pub fn encode_scsi_reply(m: &ScsiReply, out: &mut [u8]) -> usize
    requires fitting { IsTrue (scsi_reply_fit m.now) }
    requires room { scsi_reply_length m.now ≤ length out.old }
    ensures long { result ≡ scsi_reply_length m.now }
    ensures stands { ScsiReplyStands m.now out.new }
    ensures rest { drop (scsi_reply_length m.now) out.new ≡ drop (scsi_reply_length m.now) out.old }
{
    write(&ScsiReply::layout(), &m.values(), out);
    let length = m.length();
    out[FIXED..length].copy_from_slice(m.tail_bytes());
    length
}
