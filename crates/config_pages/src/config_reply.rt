//! A configuration reply.
ghost use Rattle.std.specs.Prelude.{◌≡◌, ◌≤◌, IsTrue, IfOk, MatchResult, Ok, Some, length, drop};
ghost use Rattle.mpi_layout.specs.Rows.{cut_from, first_fault, values_fit};
ghost use Rattle.config_pages.specs.ConfigReply.{ConfigReplyStands, config_reply_layout, config_reply_values};

use mpi_layout::{Fault, Layout, Row, Rule, fits, low, number, read, write};

// mpi2_cnfg.h, MPI2_CONFIG_REPLY.
static CONFIG_REPLY_ROWS: [Row; 17] = [
    number!(0x00, 1, "Action", Rule::Any),
    number!(0x01, 1, "SGLFlags", Rule::Any),
    number!(0x02, 1, "MsgLength", Rule::Between(6, 32)),
    number!(0x03, 1, "Function", Rule::Is(0x04)),
    number!(0x04, 2, "ExtPageLength", Rule::Any),
    number!(0x06, 1, "ExtPageType", Rule::Any),
    number!(0x07, 1, "MsgFlags", Rule::Any),
    number!(0x08, 1, "VP_ID", Rule::Any),
    number!(0x09, 1, "VF_ID", Rule::Any),
    number!(0x0a, 2, "Reserved", Rule::Any),
    number!(0x0c, 2, "Reserved", Rule::Any),
    number!(0x0e, 2, "IOCStatus", Rule::Any),
    number!(0x10, 4, "IOCLogInfo", Rule::Any),
    number!(0x14, 1, "PageVersion", Rule::Any),
    number!(0x15, 1, "PageLength", Rule::Any),
    number!(0x16, 1, "PageNumber", Rule::Any),
    number!(0x17, 1, "PageType", Rule::Any),
];

/// A configuration reply (mpi2_cnfg.h, MPI2_CONFIG_REPLY): how a configuration request ended, and
/// the page's header. 24 bytes.
#[derive(Clone, Copy, Debug, PartialEq, Eq)]
pub struct ConfigReply {
    /// What was done, as in the request.
    pub action: u8,
    /// Flags of the scatter gather list.
    pub sgl_flags: u8,
    /// The reply's length in dwords, from 6 to 32.
    pub msg_length: u8,
    /// The message's function: 04, configuration.
    pub function: u8,
    /// An extended page's length in dwords.
    pub ext_page_length: u16,
    /// An extended page's type: 12 is SAS device.
    pub ext_page_type: u8,
    /// Flags of the message.
    pub msg_flags: u8,
    /// The virtual port.
    pub vp_id: u8,
    /// The virtual function.
    pub vf_id: u8,
    /// Reserved; kept as it is.
    pub reserved_0a: u16,
    /// Reserved; kept as it is.
    pub reserved_0c: u16,
    /// The controller's status: a code in the low 15 bits, and 8000 where IOCLogInfo counts.
    pub ioc_status: u16,
    /// Further information on the status for a log.
    pub ioc_log_info: u32,
    /// The page's version.
    pub page_version: u8,
    /// A page's length in dwords where it isn't extended.
    pub page_length: u8,
    /// The page's number.
    pub page_number: u8,
    /// The page's type: 0f is extended.
    pub page_type: u8,
}

impl ConfigReply {
    /// A reply that has in each row 0 or the first number that the row's rule names.
    pub const BLANK: ConfigReply = ConfigReply {
        action: 0,
        sgl_flags: 0,
        msg_length: 6,
        function: 0x04,
        ext_page_length: 0,
        ext_page_type: 0,
        msg_flags: 0,
        vp_id: 0,
        vf_id: 0,
        reserved_0a: 0,
        reserved_0c: 0,
        ioc_status: 0,
        ioc_log_info: 0,
        page_version: 0,
        page_length: 0,
        page_number: 0,
        page_type: 0,
    };

    /// The layout: 17 rows, 24 bytes.
    pub fn layout() -> Layout<17>
        ensures { result ≡ config_reply_layout }
    {
        Layout::new(&CONFIG_REPLY_ROWS, 24)
    }

    /// The fields' numbers in the layout's order.
    pub fn values(&self) -> [u64; 17]
        ensures { result ≡ config_reply_values self.now }
    {
        [
            u64::from(self.action),
            u64::from(self.sgl_flags),
            u64::from(self.msg_length),
            u64::from(self.function),
            u64::from(self.ext_page_length),
            u64::from(self.ext_page_type),
            u64::from(self.msg_flags),
            u64::from(self.vp_id),
            u64::from(self.vf_id),
            u64::from(self.reserved_0a),
            u64::from(self.reserved_0c),
            u64::from(self.ioc_status),
            u64::from(self.ioc_log_info),
            u64::from(self.page_version),
            u64::from(self.page_length),
            u64::from(self.page_number),
            u64::from(self.page_type),
        ]
    }

    // The message whose fields are the low bytes of these numbers.
    fn from_values(values: &[u64; 17]) -> ConfigReply
        ensures { config_reply_values result ≡ cut_from config_reply_layout.rows values.now 0 }
    {
        ConfigReply {
            action: low!(values[0], 1),
            sgl_flags: low!(values[1], 1),
            msg_length: low!(values[2], 1),
            function: low!(values[3], 1),
            ext_page_length: low!(values[4], 2),
            ext_page_type: low!(values[5], 1),
            msg_flags: low!(values[6], 1),
            vp_id: low!(values[7], 1),
            vf_id: low!(values[8], 1),
            reserved_0a: low!(values[9], 2),
            reserved_0c: low!(values[10], 2),
            ioc_status: low!(values[11], 2),
            ioc_log_info: low!(values[12], 4),
            page_version: low!(values[13], 1),
            page_length: low!(values[14], 1),
            page_number: low!(values[15], 1),
            page_type: low!(values[16], 1),
        }
    }
}

/// Reads the message from the front of the bytes: the message that they stand for, or their first
/// fault. Bytes past the message play no part.
///
/// # Errors
/// `Short` exactly where there are fewer than 24 bytes; else `Field` with the least offset whose
/// row breaks its rule.
pub fn decode_config_reply(bytes: &[u8]) -> Result<ConfigReply, Fault>
    ensures read { MatchResult result (λ m. ConfigReplyStands m bytes.now)
        (λ fault. first_fault config_reply_layout bytes.now ≡ Some fault) }
    ensures only { (m : ConfigReply) → ConfigReplyStands m bytes.now → result ≡ Ok m }
    ensures fitting { IfOk result (λ m. IsTrue (values_fit config_reply_layout.rows (config_reply_values m))) }
{
    let values = read(&ConfigReply::layout(), bytes)?;
    Ok(ConfigReply::from_values(&values))
}

/// Whether each field fits its row's width and rule, so that some bytes stand for the message.
pub fn config_reply_fits(m: &ConfigReply) -> bool
    ensures { result ≡ values_fit config_reply_layout.rows (config_reply_values m.now) }
{
    fits(&ConfigReply::layout(), &m.values())
}

/// Writes the message's 24 bytes, from which it is read back, and gives their number. The bytes
/// past them stay.
pub fn encode_config_reply(m: &ConfigReply, out: &mut [u8]) -> usize
    requires fitting { IsTrue (values_fit config_reply_layout.rows (config_reply_values m.now)) }
    requires room { 24 ≤ length out.old }
    ensures long { result ≡ 24 }
    ensures stands { ConfigReplyStands m.now out.new }
    ensures rest { drop 24 out.new ≡ drop 24 out.old }
{
    write(&ConfigReply::layout(), &m.values(), out);
    24
}
