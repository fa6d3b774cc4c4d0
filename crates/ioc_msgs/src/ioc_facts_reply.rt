//! An IOC Facts reply.
ghost use Rattle.std.specs.Prelude.{◌≡◌, ◌≤◌, IsTrue, IfOk, MatchResult, Ok, Some, length, drop};
ghost use Rattle.mpi_layout.specs.Rows.{cut_from, first_fault, values_fit};
ghost use Rattle.ioc_msgs.specs.IocFactsReply.{IocFactsReplyStands, ioc_facts_reply_layout, ioc_facts_reply_values};

use mpi_layout::{Fault, Layout, Row, Rule, fits, low, number, read, write};

// mpi2_ioc.h, MPI2_IOC_FACTS_REPLY.
static IOC_FACTS_REPLY_ROWS: [Row; 35] = [
    number!(0x00, 2, "MsgVersion", Rule::Any),
    number!(0x02, 1, "MsgLength", Rule::Between(16, 32)),
    number!(0x03, 1, "Function", Rule::Is(0x03)),
    number!(0x04, 2, "HeaderVersion", Rule::Any),
    number!(0x06, 1, "IOCNumber", Rule::Any),
    number!(0x07, 1, "MsgFlags", Rule::Any),
    number!(0x08, 1, "VP_ID", Rule::Any),
    number!(0x09, 1, "VF_ID", Rule::Any),
    number!(0x0a, 2, "Reserved", Rule::Any),
    number!(0x0c, 2, "IOCExceptions", Rule::Any),
    number!(0x0e, 2, "IOCStatus", Rule::Any),
    number!(0x10, 4, "IOCLogInfo", Rule::Any),
    number!(0x14, 1, "MaxChainDepth", Rule::Any),
    number!(0x15, 1, "WhoInit", Rule::Any),
    number!(0x16, 1, "NumberOfPorts", Rule::Any),
    number!(0x17, 1, "MaxMSIxVectors", Rule::Any),
    number!(0x18, 2, "RequestCredit", Rule::Any),
    number!(0x1a, 2, "ProductID", Rule::Any),
    number!(0x1c, 4, "IOCCapabilities", Rule::Any),
    number!(0x20, 4, "FWVersion", Rule::Any),
    number!(0x24, 2, "IOCRequestFrameSize", Rule::Any),
    number!(0x26, 2, "Reserved", Rule::Any),
    number!(0x28, 2, "MaxInitiators", Rule::Any),
    number!(0x2a, 2, "MaxTargets", Rule::Any),
    number!(0x2c, 2, "MaxSasExpanders", Rule::Any),
    number!(0x2e, 2, "MaxEnclosures", Rule::Any),
    number!(0x30, 2, "ProtocolFlags", Rule::Any),
    number!(0x32, 2, "HighPriorityCredit", Rule::Any),
    number!(0x34, 2, "MaxReplyDescriptorPostQueueDepth", Rule::Any),
    number!(0x36, 1, "ReplyFrameSize", Rule::Any),
    number!(0x37, 1, "MaxVolumes", Rule::Any),
    number!(0x38, 2, "MaxDevHandle", Rule::Any),
    number!(0x3a, 2, "MaxPersistentEntries", Rule::Any),
    number!(0x3c, 2, "MinDevHandle", Rule::Any),
    number!(0x3e, 2, "Reserved", Rule::Any),
];

/// An IOC Facts reply (mpi2_ioc.h, MPI2_IOC_FACTS_REPLY): what the controller is and can take. 64
/// bytes.
#[derive(Clone, Copy, Debug, PartialEq, Eq)]
pub struct IocFactsReply {
    /// The version of the message interface: the major number in the high byte.
    pub msg_version: u16,
    /// The reply's length in dwords, from 16 to 32.
    pub msg_length: u8,
    /// The message's function: 03, IOC Facts.
    pub function: u8,
    /// The version of the headers.
    pub header_version: u16,
    /// The controller's number.
    pub ioc_number: u8,
    /// Flags of the message.
    pub msg_flags: u8,
    /// The virtual port.
    pub vp_id: u8,
    /// The virtual function.
    pub vf_id: u8,
    /// Reserved; kept as it is.
    pub reserved_0a: u16,
    /// Bits for what is wrong with the controller.
    pub ioc_exceptions: u16,
    /// The controller's status: a code in the low 15 bits, and 8000 where IOCLogInfo counts.
    pub ioc_status: u16,
    /// Further information on the status for a log.
    pub ioc_log_info: u32,
    /// The most chain elements of a request.
    pub max_chain_depth: u8,
    /// Who initialised the controller: 0 nobody, 4 the host driver.
    pub who_init: u8,
    /// How many ports the controller has.
    pub number_of_ports: u8,
    /// The most MSI-X vectors.
    pub max_msix_vectors: u8,
    /// How many requests the controller takes at a time.
    pub request_credit: u16,
    /// The product's number.
    pub product_id: u16,
    /// Bits for what the controller is able to do.
    pub ioc_capabilities: u32,
    /// The firmware's version, a byte for each of its four parts.
    pub fw_version: u32,
    /// A request frame's size in dwords.
    pub ioc_request_frame_size: u16,
    /// Reserved; kept as it is.
    pub reserved_26: u16,
    /// The most initiators.
    pub max_initiators: u16,
    /// The most targets.
    pub max_targets: u16,
    /// The most SAS expanders.
    pub max_sas_expanders: u16,
    /// The most enclosures.
    pub max_enclosures: u16,
    /// The protocols: bit 0 SCSI target, bit 1 SCSI initiator.
    pub protocol_flags: u16,
    /// How many high-priority requests the controller takes at a time.
    pub high_priority_credit: u16,
    /// The most entries of the reply descriptor post queue.
    pub max_reply_descriptor_post_queue_depth: u16,
    /// A reply frame's size in dwords.
    pub reply_frame_size: u8,
    /// The most RAID volumes.
    pub max_volumes: u8,
    /// The greatest device handle.
    pub max_dev_handle: u16,
    /// The most persistent mappings.
    pub max_persistent_entries: u16,
    /// The least device handle of a device.
    pub min_dev_handle: u16,
    /// Reserved; kept as it is.
    pub reserved_3e: u16,
}

impl IocFactsReply {
    /// A reply that has in each row 0 or the first number that the row's rule names.
    pub const BLANK: IocFactsReply = IocFactsReply {
        msg_version: 0,
        msg_length: 16,
        function: 0x03,
        header_version: 0,
        ioc_number: 0,
        msg_flags: 0,
        vp_id: 0,
        vf_id: 0,
        reserved_0a: 0,
        ioc_exceptions: 0,
        ioc_status: 0,
        ioc_log_info: 0,
        max_chain_depth: 0,
        who_init: 0,
        number_of_ports: 0,
        max_msix_vectors: 0,
        request_credit: 0,
        product_id: 0,
        ioc_capabilities: 0,
        fw_version: 0,
        ioc_request_frame_size: 0,
        reserved_26: 0,
        max_initiators: 0,
        max_targets: 0,
        max_sas_expanders: 0,
        max_enclosures: 0,
        protocol_flags: 0,
        high_priority_credit: 0,
        max_reply_descriptor_post_queue_depth: 0,
        reply_frame_size: 0,
        max_volumes: 0,
        max_dev_handle: 0,
        max_persistent_entries: 0,
        min_dev_handle: 0,
        reserved_3e: 0,
    };

    /// The layout: 35 rows, 64 bytes.
    pub fn layout() -> Layout<35>
        ensures { result ≡ ioc_facts_reply_layout }
    {
        Layout::new(&IOC_FACTS_REPLY_ROWS, 64)
    }

    /// The fields' numbers in the layout's order.
    pub fn values(&self) -> [u64; 35]
        ensures { result ≡ ioc_facts_reply_values self.now }
    {
        [
            u64::from(self.msg_version),
            u64::from(self.msg_length),
            u64::from(self.function),
            u64::from(self.header_version),
            u64::from(self.ioc_number),
            u64::from(self.msg_flags),
            u64::from(self.vp_id),
            u64::from(self.vf_id),
            u64::from(self.reserved_0a),
            u64::from(self.ioc_exceptions),
            u64::from(self.ioc_status),
            u64::from(self.ioc_log_info),
            u64::from(self.max_chain_depth),
            u64::from(self.who_init),
            u64::from(self.number_of_ports),
            u64::from(self.max_msix_vectors),
            u64::from(self.request_credit),
            u64::from(self.product_id),
            u64::from(self.ioc_capabilities),
            u64::from(self.fw_version),
            u64::from(self.ioc_request_frame_size),
            u64::from(self.reserved_26),
            u64::from(self.max_initiators),
            u64::from(self.max_targets),
            u64::from(self.max_sas_expanders),
            u64::from(self.max_enclosures),
            u64::from(self.protocol_flags),
            u64::from(self.high_priority_credit),
            u64::from(self.max_reply_descriptor_post_queue_depth),
            u64::from(self.reply_frame_size),
            u64::from(self.max_volumes),
            u64::from(self.max_dev_handle),
            u64::from(self.max_persistent_entries),
            u64::from(self.min_dev_handle),
            u64::from(self.reserved_3e),
        ]
    }

    // The message whose fields are the low bytes of these numbers.
    fn from_values(values: &[u64; 35]) -> IocFactsReply
        ensures { ioc_facts_reply_values result ≡ cut_from ioc_facts_reply_layout.rows values.now 0 }
    {
        IocFactsReply {
            msg_version: low!(values[0], 2),
            msg_length: low!(values[1], 1),
            function: low!(values[2], 1),
            header_version: low!(values[3], 2),
            ioc_number: low!(values[4], 1),
            msg_flags: low!(values[5], 1),
            vp_id: low!(values[6], 1),
            vf_id: low!(values[7], 1),
            reserved_0a: low!(values[8], 2),
            ioc_exceptions: low!(values[9], 2),
            ioc_status: low!(values[10], 2),
            ioc_log_info: low!(values[11], 4),
            max_chain_depth: low!(values[12], 1),
            who_init: low!(values[13], 1),
            number_of_ports: low!(values[14], 1),
            max_msix_vectors: low!(values[15], 1),
            request_credit: low!(values[16], 2),
            product_id: low!(values[17], 2),
            ioc_capabilities: low!(values[18], 4),
            fw_version: low!(values[19], 4),
            ioc_request_frame_size: low!(values[20], 2),
            reserved_26: low!(values[21], 2),
            max_initiators: low!(values[22], 2),
            max_targets: low!(values[23], 2),
            max_sas_expanders: low!(values[24], 2),
            max_enclosures: low!(values[25], 2),
            protocol_flags: low!(values[26], 2),
            high_priority_credit: low!(values[27], 2),
            max_reply_descriptor_post_queue_depth: low!(values[28], 2),
            reply_frame_size: low!(values[29], 1),
            max_volumes: low!(values[30], 1),
            max_dev_handle: low!(values[31], 2),
            max_persistent_entries: low!(values[32], 2),
            min_dev_handle: low!(values[33], 2),
            reserved_3e: low!(values[34], 2),
        }
    }
}

/// Reads the message from the front of the bytes: the message that they stand for, or their first
/// fault. Bytes past the message play no part.
///
/// # Errors
/// `Short` exactly where there are fewer than 64 bytes; else `Field` with the least offset whose
/// row breaks its rule.
pub fn decode_ioc_facts_reply(bytes: &[u8]) -> Result<IocFactsReply, Fault>
    ensures read { MatchResult result (λ m. IocFactsReplyStands m bytes.now)
        (λ fault. first_fault ioc_facts_reply_layout bytes.now ≡ Some fault) }
    ensures only { (m : IocFactsReply) → IocFactsReplyStands m bytes.now → result ≡ Ok m }
    ensures fitting { IfOk result (λ m. IsTrue (values_fit ioc_facts_reply_layout.rows (ioc_facts_reply_values m))) }
{
    let values = read(&IocFactsReply::layout(), bytes)?;
    Ok(IocFactsReply::from_values(&values))
}

/// Whether each field fits its row's width and rule, so that some bytes stand for the message.
pub fn ioc_facts_reply_fits(m: &IocFactsReply) -> bool
    ensures { result ≡ values_fit ioc_facts_reply_layout.rows (ioc_facts_reply_values m.now) }
{
    fits(&IocFactsReply::layout(), &m.values())
}

/// Writes the message's 64 bytes, from which it is read back, and gives their number. The bytes
/// past them stay.
pub fn encode_ioc_facts_reply(m: &IocFactsReply, out: &mut [u8]) -> usize
    requires fitting { IsTrue (values_fit ioc_facts_reply_layout.rows (ioc_facts_reply_values m.now)) }
    requires room { 64 ≤ length out.old }
    ensures long { result ≡ 64 }
    ensures stands { IocFactsReplyStands m.now out.new }
    ensures rest { drop 64 out.new ≡ drop 64 out.old }
{
    write(&IocFactsReply::layout(), &m.values(), out);
    64
}
