//! A task management request.
ghost use Rattle.std.specs.Prelude.{◌≡◌, ◌≤◌, IsTrue, IfOk, MatchResult, Ok, Some, length, drop};
ghost use Rattle.mpi_layout.specs.Rows.{cut_from, first_fault, values_fit};
ghost use Rattle.scsi_msgs.specs.TaskAsk.{TaskAskStands, task_ask_layout, task_ask_values};

use mpi_layout::{Fault, Layout, Row, Rule, bytes, fits, low, number, one_of, read, write};

// mpi2_init.h, MPI2_SCSI_TASK_MANAGE_REQUEST.
static TASK_ASK_ROWS: [Row; 17] = [
    number!(0x00, 2, "DevHandle", Rule::Any),
    number!(0x02, 1, "ChainOffset", Rule::Zero),
    number!(0x03, 1, "Function", Rule::Is(0x01)),
    number!(0x04, 1, "Reserved", Rule::Zero),
    number!(0x05, 1, "TaskType", one_of!(1, 3, 5, 7)),
    number!(0x06, 1, "Reserved", Rule::Zero),
    number!(0x07, 1, "MsgFlags", Rule::Zero),
    number!(0x08, 1, "VP_ID", Rule::Zero),
    number!(0x09, 1, "VF_ID", Rule::Zero),
    number!(0x0a, 2, "Reserved", Rule::Zero),
    bytes!(0x0c, 8, "LUN", Rule::Any),
    bytes!(0x14, 8, "Reserved", Rule::Zero),
    bytes!(0x1c, 8, "Reserved", Rule::Zero),
    bytes!(0x24, 8, "Reserved", Rule::Zero),
    bytes!(0x2c, 4, "Reserved", Rule::Zero),
    number!(0x30, 2, "TaskMID", Rule::Any),
    number!(0x32, 2, "Reserved", Rule::Zero),
];

/// A task management request (mpi2_init.h, MPI2_SCSI_TASK_MANAGE_REQUEST): a request that aborts or
/// asks for a command, or resets a disk or a logical unit. 52 bytes.
#[derive(Clone, Copy, Debug, PartialEq, Eq)]
pub struct TaskAsk {
    /// The device handle of the disk.
    pub dev_handle: u16,
    /// Where a chain element lies, in dwords; 0 for none.
    pub chain_offset: u8,
    /// The message's function: 01, task management.
    pub function: u8,
    /// Reserved, 0.
    pub reserved_04: u8,
    /// The task: 1 abort task, 3 target reset, 5 logical unit reset, 7 query task.
    pub task_type: u8,
    /// Reserved, 0.
    pub reserved_06: u8,
    /// Flags of the message, 0.
    pub msg_flags: u8,
    /// The virtual port, 0.
    pub vp_id: u8,
    /// The virtual function, 0.
    pub vf_id: u8,
    /// Reserved, 0.
    pub reserved_0a: u16,
    /// The logical unit's number, 8 bytes.
    pub lun: u64,
    /// Reserved, 0.
    pub reserved_14: u64,
    /// Reserved, 0.
    pub reserved_1c: u64,
    /// Reserved, 0.
    pub reserved_24: u64,
    /// Reserved, 0.
    pub reserved_2c: u32,
    /// The message identifier of the command that the task is about.
    pub task_mid: u16,
    /// Reserved, 0.
    pub reserved_32: u16,
}

impl TaskAsk {
    /// A request that has in each row 0 or the first number that the row's rule names.
    pub const BLANK: TaskAsk = TaskAsk {
        dev_handle: 0,
        chain_offset: 0,
        function: 0x01,
        reserved_04: 0,
        task_type: 1,
        reserved_06: 0,
        msg_flags: 0,
        vp_id: 0,
        vf_id: 0,
        reserved_0a: 0,
        lun: 0,
        reserved_14: 0,
        reserved_1c: 0,
        reserved_24: 0,
        reserved_2c: 0,
        task_mid: 0,
        reserved_32: 0,
    };

    /// The layout: 17 rows, 52 bytes.
    pub fn layout() -> Layout<17>
        ensures { result ≡ task_ask_layout }
    {
        Layout::new(&TASK_ASK_ROWS, 52)
    }

    /// The fields' numbers in the layout's order.
    pub fn values(&self) -> [u64; 17]
        ensures { result ≡ task_ask_values self.now }
    {
        [
            u64::from(self.dev_handle),
            u64::from(self.chain_offset),
            u64::from(self.function),
            u64::from(self.reserved_04),
            u64::from(self.task_type),
            u64::from(self.reserved_06),
            u64::from(self.msg_flags),
            u64::from(self.vp_id),
            u64::from(self.vf_id),
            u64::from(self.reserved_0a),
            self.lun,
            self.reserved_14,
            self.reserved_1c,
            self.reserved_24,
            u64::from(self.reserved_2c),
            u64::from(self.task_mid),
            u64::from(self.reserved_32),
        ]
    }

    // The message whose fields are the low bytes of these numbers.
    fn from_values(values: &[u64; 17]) -> TaskAsk
        ensures { task_ask_values result ≡ cut_from task_ask_layout.rows values.now 0 }
    {
        TaskAsk {
            dev_handle: low!(values[0], 2),
            chain_offset: low!(values[1], 1),
            function: low!(values[2], 1),
            reserved_04: low!(values[3], 1),
            task_type: low!(values[4], 1),
            reserved_06: low!(values[5], 1),
            msg_flags: low!(values[6], 1),
            vp_id: low!(values[7], 1),
            vf_id: low!(values[8], 1),
            reserved_0a: low!(values[9], 2),
            lun: low!(values[10], 8),
            reserved_14: low!(values[11], 8),
            reserved_1c: low!(values[12], 8),
            reserved_24: low!(values[13], 8),
            reserved_2c: low!(values[14], 4),
            task_mid: low!(values[15], 2),
            reserved_32: low!(values[16], 2),
        }
    }
}

/// Reads the message from the front of the bytes: the message that they stand for, or their first
/// fault. Bytes past the message play no part.
///
/// # Errors
/// `Short` exactly where there are fewer than 52 bytes; else `Field` with the least offset whose
/// row breaks its rule.
pub fn decode_task_ask(bytes: &[u8]) -> Result<TaskAsk, Fault>
    ensures read { MatchResult result (λ m. TaskAskStands m bytes.now)
        (λ fault. first_fault task_ask_layout bytes.now ≡ Some fault) }
    ensures only { (m : TaskAsk) → TaskAskStands m bytes.now → result ≡ Ok m }
    ensures fitting { IfOk result (λ m. IsTrue (values_fit task_ask_layout.rows (task_ask_values m))) }
{
    let values = read(&TaskAsk::layout(), bytes)?;
    Ok(TaskAsk::from_values(&values))
}

/// Whether each field fits its row's width and rule, so that some bytes stand for the message.
pub fn task_ask_fits(m: &TaskAsk) -> bool
    ensures { result ≡ values_fit task_ask_layout.rows (task_ask_values m.now) }
{
    fits(&TaskAsk::layout(), &m.values())
}

/// Writes the message's 52 bytes, from which it is read back, and gives their number. The bytes
/// past them stay.
pub fn encode_task_ask(m: &TaskAsk, out: &mut [u8]) -> usize
    requires fitting { IsTrue (values_fit task_ask_layout.rows (task_ask_values m.now)) }
    requires room { 52 ≤ length out.old }
    ensures long { result ≡ 52 }
    ensures stands { TaskAskStands m.now out.new }
    ensures rest { drop 52 out.new ≡ drop 52 out.old }
{
    write(&TaskAsk::layout(), &m.values(), out);
    52
}
