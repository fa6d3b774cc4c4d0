//! A task management reply.
ghost use Rattle.std.specs.Prelude.{◌≡◌, ◌≤◌, IsTrue, IfOk, MatchResult, Ok, Some, length, drop};
ghost use Rattle.mpi_layout.specs.Rows.{cut_from, first_fault, values_fit};
ghost use Rattle.scsi_msgs.specs.TaskReply.{TaskReplyStands, task_reply_layout, task_reply_values};

use mpi_layout::{Fault, Layout, Row, Rule, fits, low, number, read, write};

// mpi2_init.h, MPI2_SCSI_TASK_MANAGE_REPLY.
static TASK_REPLY_ROWS: [Row; 15] = [
    number!(0x00, 2, "DevHandle", Rule::Any),
    number!(0x02, 1, "MsgLength", Rule::Between(7, 32)),
    number!(0x03, 1, "Function", Rule::Is(0x01)),
    number!(0x04, 1, "ResponseCode", Rule::Any),
    number!(0x05, 1, "TaskType", Rule::Any),
    number!(0x06, 1, "Reserved", Rule::Any),
    number!(0x07, 1, "MsgFlags", Rule::Any),
    number!(0x08, 1, "VP_ID", Rule::Any),
    number!(0x09, 1, "VF_ID", Rule::Any),
    number!(0x0a, 2, "Reserved", Rule::Any),
    number!(0x0c, 2, "Reserved", Rule::Any),
    number!(0x0e, 2, "IOCStatus", Rule::Any),
    number!(0x10, 4, "IOCLogInfo", Rule::Any),
    number!(0x14, 4, "TerminationCount", Rule::Any),
    number!(0x18, 4, "ResponseInfo", Rule::Any),
];

/// A task management reply (mpi2_init.h, MPI2_SCSI_TASK_MANAGE_REPLY): how a task ended. 28 bytes.
#[derive(Clone, Copy, Debug, PartialEq, Eq)]
pub struct TaskReply {
    /// The device handle of the disk.
    pub dev_handle: u16,
    /// The reply's length in dwords, from 7 to 32.
    pub msg_length: u8,
    /// The message's function: 01, task management.
    pub function: u8,
    /// The task's outcome: 00 complete, 04 not supported, 05 failed, 08 succeeded, 09 invalid LUN.
    pub response_code: u8,
    /// The task, as in the request.
    pub task_type: u8,
    /// Reserved; kept as it is.
    pub reserved_06: u8,
    /// Flags of the message.
    pub msg_flags: u8,
    /// The virtual port.
    pub vp_id: u8,
    /// The virtual function.
    pub vf_id: u8,
    /// Reserved; kept as it is.
    pub reserved_0a: u16,
    /// Reserved; kept as it is.
    pub reserved_0c: u16,
    /// The controller's status: a code in the low 15 bits, and 8000 where IOCLogInfo counts.
    pub ioc_status: u16,
    /// Further information on the status for a log.
    pub ioc_log_info: u32,
    /// How many commands the task ended.
    pub termination_count: u32,
    /// The disk's response information.
    pub response_info: u32,
}

impl TaskReply {
    /// A reply that has in each row 0 or the first number that the row's rule names.
    pub const BLANK: TaskReply = TaskReply {
        dev_handle: 0,
        msg_length: 7,
        function: 0x01,
        response_code: 0,
        task_type: 0,
        reserved_06: 0,
        msg_flags: 0,
        vp_id: 0,
        vf_id: 0,
        reserved_0a: 0,
        reserved_0c: 0,
        ioc_status: 0,
        ioc_log_info: 0,
        termination_count: 0,
        response_info: 0,
    };

    /// The layout: 15 rows, 28 bytes.
    pub fn layout() -> Layout<15>
        ensures { result ≡ task_reply_layout }
    {
        Layout::new(&TASK_REPLY_ROWS, 28)
    }

    /// The fields' numbers in the layout's order.
    pub fn values(&self) -> [u64; 15]
        ensures { result ≡ task_reply_values self.now }
    {
        [
            u64::from(self.dev_handle),
            u64::from(self.msg_length),
            u64::from(self.function),
            u64::from(self.response_code),
            u64::from(self.task_type),
            u64::from(self.reserved_06),
            u64::from(self.msg_flags),
            u64::from(self.vp_id),
            u64::from(self.vf_id),
            u64::from(self.reserved_0a),
            u64::from(self.reserved_0c),
            u64::from(self.ioc_status),
            u64::from(self.ioc_log_info),
            u64::from(self.termination_count),
            u64::from(self.response_info),
        ]
    }

    // The message whose fields are the low bytes of these numbers.
    fn from_values(values: &[u64; 15]) -> TaskReply
        ensures { task_reply_values result ≡ cut_from task_reply_layout.rows values.now 0 }
    {
        TaskReply {
            dev_handle: low!(values[0], 2),
            msg_length: low!(values[1], 1),
            function: low!(values[2], 1),
            response_code: low!(values[3], 1),
            task_type: low!(values[4], 1),
            reserved_06: low!(values[5], 1),
            msg_flags: low!(values[6], 1),
            vp_id: low!(values[7], 1),
            vf_id: low!(values[8], 1),
            reserved_0a: low!(values[9], 2),
            reserved_0c: low!(values[10], 2),
            ioc_status: low!(values[11], 2),
            ioc_log_info: low!(values[12], 4),
            termination_count: low!(values[13], 4),
            response_info: low!(values[14], 4),
        }
    }
}

/// Reads the message from the front of the bytes: the message that they stand for, or their first
/// fault. Bytes past the message play no part.
///
/// # Errors
/// `Short` exactly where there are fewer than 28 bytes; else `Field` with the least offset whose
/// row breaks its rule.
pub fn decode_task_reply(bytes: &[u8]) -> Result<TaskReply, Fault>
    ensures read { MatchResult result (λ m. TaskReplyStands m bytes.now)
        (λ fault. first_fault task_reply_layout bytes.now ≡ Some fault) }
    ensures only { (m : TaskReply) → TaskReplyStands m bytes.now → result ≡ Ok m }
    ensures fitting { IfOk result (λ m. IsTrue (values_fit task_reply_layout.rows (task_reply_values m))) }
{
    let values = read(&TaskReply::layout(), bytes)?;
    Ok(TaskReply::from_values(&values))
}

/// Whether each field fits its row's width and rule, so that some bytes stand for the message.
pub fn task_reply_fits(m: &TaskReply) -> bool
    ensures { result ≡ values_fit task_reply_layout.rows (task_reply_values m.now) }
{
    fits(&TaskReply::layout(), &m.values())
}

/// Writes the message's 28 bytes, from which it is read back, and gives their number. The bytes
/// past them stay.
pub fn encode_task_reply(m: &TaskReply, out: &mut [u8]) -> usize
    requires fitting { IsTrue (values_fit task_reply_layout.rows (task_reply_values m.now)) }
    requires room { 28 ≤ length out.old }
    ensures long { result ≡ 28 }
    ensures stands { TaskReplyStands m.now out.new }
    ensures rest { drop 28 out.new ≡ drop 28 out.old }
{
    write(&TaskReply::layout(), &m.values(), out);
    28
}
