//! An IOC Init request.
ghost use Rattle.std.specs.Prelude.{◌≡◌, ◌≤◌, IsTrue, IfOk, MatchResult, Ok, Some, length, drop};
ghost use Rattle.mpi_layout.specs.Rows.{cut_from, first_fault, values_fit};
ghost use Rattle.ioc_msgs.specs.IocInit.{IocInitStands, ioc_init_layout, ioc_init_values};

use mpi_layout::{Fault, Layout, Row, Rule, fits, low, number, read, write};

// mpi2_ioc.h, MPI2_IOC_INIT_REQUEST.
static IOC_INIT_ROWS: [Row; 25] = [
    number!(0x00, 1, "WhoInit", Rule::Between(0, 7)),
    number!(0x01, 1, "Reserved", Rule::Zero),
    number!(0x02, 1, "ChainOffset", Rule::Zero),
    number!(0x03, 1, "Function", Rule::Is(0x02)),
    number!(0x04, 2, "Reserved", Rule::Zero),
    number!(0x06, 1, "Reserved", Rule::Zero),
    number!(0x07, 1, "MsgFlags", Rule::Zero),
    number!(0x08, 1, "VP_ID", Rule::Zero),
    number!(0x09, 1, "VF_ID", Rule::Zero),
    number!(0x0a, 2, "Reserved", Rule::Zero),
    number!(0x0c, 2, "MsgVersion", Rule::Is(0x0200)),
    number!(0x0e, 2, "HeaderVersion", Rule::Any),
    number!(0x10, 4, "Reserved", Rule::Zero),
    number!(0x14, 3, "Reserved", Rule::Any),
    number!(0x17, 1, "HostMSIxVectors", Rule::Any),
    number!(0x18, 2, "Reserved", Rule::Zero),
    number!(0x1a, 2, "SystemRequestFrameSize", Rule::Any),
    number!(0x1c, 2, "ReplyDescriptorPostQueueDepth", Rule::Any),
    number!(0x1e, 2, "ReplyFreeQueueDepth", Rule::Any),
    number!(0x20, 4, "SenseBufferAddressHigh", Rule::Any),
    number!(0x24, 4, "SystemReplyAddressHigh", Rule::Any),
    number!(0x28, 8, "SystemRequestFrameBaseAddress", Rule::Any),
    number!(0x30, 8, "ReplyDescriptorPostQueueAddress", Rule::Any),
    number!(0x38, 8, "ReplyFreeQueueAddress", Rule::Any),
    number!(0x40, 8, "TimeStamp", Rule::Any),
];

/// An IOC Init request (mpi2_ioc.h, MPI2_IOC_INIT_REQUEST): gives the controller the host's queues
/// and makes it operational. 72 bytes.
#[derive(Clone, Copy, Debug, PartialEq, Eq)]
pub struct IocInit {
    /// Who initialises the controller, from 0 to 7: 4 is the host driver.
    pub who_init: u8,
    /// Reserved, 0.
    pub reserved_01: u8,
    /// Where a chain element lies, in dwords; 0 for none.
    pub chain_offset: u8,
    /// The message's function: 02, IOC Init.
    pub function: u8,
    /// Reserved, 0.
    pub reserved_04: u16,
    /// Reserved, 0.
    pub reserved_06: u8,
    /// Flags of the message, 0.
    pub msg_flags: u8,
    /// The virtual port, 0.
    pub vp_id: u8,
    /// The virtual function, 0.
    pub vf_id: u8,
    /// Reserved, 0.
    pub reserved_0a: u16,
    /// The version of the message interface: 2.0.
    pub msg_version: u16,
    /// The version of the headers.
    pub header_version: u16,
    /// Reserved, 0.
    pub reserved_10: u32,
    /// Reserved; kept as it is.
    pub reserved_14: u32,
    /// How many MSI-X vectors the host uses.
    pub host_msix_vectors: u8,
    /// Reserved, 0.
    pub reserved_18: u16,
    /// A request frame's size in dwords.
    pub system_request_frame_size: u16,
    /// How many entries the reply descriptor post queue has.
    pub reply_descriptor_post_queue_depth: u16,
    /// How many entries the reply free queue has.
    pub reply_free_queue_depth: u16,
    /// The high 32 bits of each sense buffer's address.
    pub sense_buffer_address_high: u32,
    /// The high 32 bits of each reply frame's address.
    pub system_reply_address_high: u32,
    /// The address of the request frames.
    pub system_request_frame_base_address: u64,
    /// The address of the reply descriptor post queue.
    pub reply_descriptor_post_queue_address: u64,
    /// The address of the reply free queue.
    pub reply_free_queue_address: u64,
    /// The time, in milliseconds.
    pub time_stamp: u64,
}

impl IocInit {
    /// A request that has in each row 0 or the first number that the row's rule names.
    pub const BLANK: IocInit = IocInit {
        who_init: 0,
        reserved_01: 0,
        chain_offset: 0,
        function: 0x02,
        reserved_04: 0,
        reserved_06: 0,
        msg_flags: 0,
        vp_id: 0,
        vf_id: 0,
        reserved_0a: 0,
        msg_version: 0x0200,
        header_version: 0,
        reserved_10: 0,
        reserved_14: 0,
        host_msix_vectors: 0,
        reserved_18: 0,
        system_request_frame_size: 0,
        reply_descriptor_post_queue_depth: 0,
        reply_free_queue_depth: 0,
        sense_buffer_address_high: 0,
        system_reply_address_high: 0,
        system_request_frame_base_address: 0,
        reply_descriptor_post_queue_address: 0,
        reply_free_queue_address: 0,
        time_stamp: 0,
    };

    /// The layout: 25 rows, 72 bytes.
    pub fn layout() -> Layout<25>
        ensures { result ≡ ioc_init_layout }
    {
        Layout::new(&IOC_INIT_ROWS, 72)
    }

    /// The fields' numbers in the layout's order.
    pub fn values(&self) -> [u64; 25]
        ensures { result ≡ ioc_init_values self.now }
    {
        [
            u64::from(self.who_init),
            u64::from(self.reserved_01),
            u64::from(self.chain_offset),
            u64::from(self.function),
            u64::from(self.reserved_04),
            u64::from(self.reserved_06),
            u64::from(self.msg_flags),
            u64::from(self.vp_id),
            u64::from(self.vf_id),
            u64::from(self.reserved_0a),
            u64::from(self.msg_version),
            u64::from(self.header_version),
            u64::from(self.reserved_10),
            u64::from(self.reserved_14),
            u64::from(self.host_msix_vectors),
            u64::from(self.reserved_18),
            u64::from(self.system_request_frame_size),
            u64::from(self.reply_descriptor_post_queue_depth),
            u64::from(self.reply_free_queue_depth),
            u64::from(self.sense_buffer_address_high),
            u64::from(self.system_reply_address_high),
            self.system_request_frame_base_address,
            self.reply_descriptor_post_queue_address,
            self.reply_free_queue_address,
            self.time_stamp,
        ]
    }

    // The message whose fields are the low bytes of these numbers.
    fn from_values(values: &[u64; 25]) -> IocInit
        ensures { ioc_init_values result ≡ cut_from ioc_init_layout.rows values.now 0 }
    {
        IocInit {
            who_init: low!(values[0], 1),
            reserved_01: low!(values[1], 1),
            chain_offset: low!(values[2], 1),
            function: low!(values[3], 1),
            reserved_04: low!(values[4], 2),
            reserved_06: low!(values[5], 1),
            msg_flags: low!(values[6], 1),
            vp_id: low!(values[7], 1),
            vf_id: low!(values[8], 1),
            reserved_0a: low!(values[9], 2),
            msg_version: low!(values[10], 2),
            header_version: low!(values[11], 2),
            reserved_10: low!(values[12], 4),
            reserved_14: low!(values[13], 3),
            host_msix_vectors: low!(values[14], 1),
            reserved_18: low!(values[15], 2),
            system_request_frame_size: low!(values[16], 2),
            reply_descriptor_post_queue_depth: low!(values[17], 2),
            reply_free_queue_depth: low!(values[18], 2),
            sense_buffer_address_high: low!(values[19], 4),
            system_reply_address_high: low!(values[20], 4),
            system_request_frame_base_address: low!(values[21], 8),
            reply_descriptor_post_queue_address: low!(values[22], 8),
            reply_free_queue_address: low!(values[23], 8),
            time_stamp: low!(values[24], 8),
        }
    }
}

/// Reads the message from the front of the bytes: the message that they stand for, or their first
/// fault. Bytes past the message play no part.
///
/// # Errors
/// `Short` exactly where there are fewer than 72 bytes; else `Field` with the least offset whose
/// row breaks its rule.
pub fn decode_ioc_init(bytes: &[u8]) -> Result<IocInit, Fault>
    ensures read { MatchResult result (λ m. IocInitStands m bytes.now)
        (λ fault. first_fault ioc_init_layout bytes.now ≡ Some fault) }
    ensures only { (m : IocInit) → IocInitStands m bytes.now → result ≡ Ok m }
    ensures fitting { IfOk result (λ m. IsTrue (values_fit ioc_init_layout.rows (ioc_init_values m))) }
{
    let values = read(&IocInit::layout(), bytes)?;
    Ok(IocInit::from_values(&values))
}

/// Whether each field fits its row's width and rule, so that some bytes stand for the message.
pub fn ioc_init_fits(m: &IocInit) -> bool
    ensures { result ≡ values_fit ioc_init_layout.rows (ioc_init_values m.now) }
{
    fits(&IocInit::layout(), &m.values())
}

/// Writes the message's 72 bytes, from which it is read back, and gives their number. The bytes
/// past them stay.
pub fn encode_ioc_init(m: &IocInit, out: &mut [u8]) -> usize
    requires fitting { IsTrue (values_fit ioc_init_layout.rows (ioc_init_values m.now)) }
    requires room { 72 ≤ length out.old }
    ensures long { result ≡ 72 }
    ensures stands { IocInitStands m.now out.new }
    ensures rest { drop 72 out.new ≡ drop 72 out.old }
{
    write(&IocInit::layout(), &m.values(), out);
    72
}
