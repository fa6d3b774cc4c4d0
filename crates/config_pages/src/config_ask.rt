//! A configuration request.
ghost use Rattle.std.specs.Prelude.{◌≡◌, ◌≤◌, IsTrue, IfOk, MatchResult, Ok, Some, length, drop};
ghost use Rattle.mpi_layout.specs.Rows.{cut_from, first_fault, values_fit};
ghost use Rattle.config_pages.specs.ConfigAsk.{ConfigAskStands, config_ask_layout, config_ask_values};

use mpi_layout::{Fault, Layout, Row, Rule, fits, low, number, one_of, read, write};

// mpi2_cnfg.h, MPI2_CONFIG_REQUEST.
static CONFIG_ASK_ROWS: [Row; 22] = [
    number!(0x00, 1, "Action", Rule::Any),
    number!(0x01, 1, "SGLFlags", Rule::Any),
    number!(0x02, 1, "ChainOffset", Rule::Zero),
    number!(0x03, 1, "Function", Rule::Is(0x04)),
    number!(0x04, 2, "ExtPageLength", Rule::Any),
    number!(0x06, 1, "ExtPageType", Rule::Any),
    number!(0x07, 1, "MsgFlags", Rule::Zero),
    number!(0x08, 1, "VP_ID", Rule::Zero),
    number!(0x09, 1, "VF_ID", Rule::Zero),
    number!(0x0a, 2, "Reserved", Rule::Zero),
    number!(0x0c, 1, "Reserved", Rule::Zero),
    number!(0x0d, 1, "ProxyVF_ID", Rule::Zero),
    number!(0x0e, 2, "Reserved", Rule::Zero),
    number!(0x10, 4, "Reserved", Rule::Zero),
    number!(0x14, 1, "PageVersion", Rule::Any),
    number!(0x15, 1, "PageLength", Rule::Any),
    number!(0x16, 1, "PageNumber", Rule::Any),
    number!(0x17, 1, "PageType", Rule::Any),
    number!(0x18, 4, "PageAddress", Rule::Any),
    number!(0x1c, 3, "SgeLength", Rule::Any),
    number!(0x1f, 1, "SgeFlags", one_of!(0xd3, 0xd7)),
    number!(0x20, 8, "SgeAddress", Rule::Any),
];

/// A configuration request (mpi2_cnfg.h, MPI2_CONFIG_REQUEST): reads or writes a configuration
/// page, with one simple scatter gather element. 40 bytes.
#[derive(Clone, Copy, Debug, PartialEq, Eq)]
pub struct ConfigAsk {
    /// What is to be done: 00 page header, 01 read the current page.
    pub action: u8,
    /// Flags of the scatter gather list.
    pub sgl_flags: u8,
    /// Where a chain element lies, in dwords; 0 for none.
    pub chain_offset: u8,
    /// The message's function: 04, configuration.
    pub function: u8,
    /// An extended page's length in dwords.
    pub ext_page_length: u16,
    /// An extended page's type: 12 is SAS device.
    pub ext_page_type: u8,
    /// Flags of the message, 0.
    pub msg_flags: u8,
    /// The virtual port, 0.
    pub vp_id: u8,
    /// The virtual function, 0.
    pub vf_id: u8,
    /// Reserved, 0.
    pub reserved_0a: u16,
    /// Reserved, 0.
    pub reserved_0c: u8,
    /// The virtual function that is acted for, 0.
    pub proxy_vf_id: u8,
    /// Reserved, 0.
    pub reserved_0e: u16,
    /// Reserved, 0.
    pub reserved_10: u32,
    /// The page's version.
    pub page_version: u8,
    /// A page's length in dwords where it isn't extended.
    pub page_length: u8,
    /// The page's number.
    pub page_number: u8,
    /// The page's type: 0f is extended.
    pub page_type: u8,
    /// Which page of its kind is meant: a form in the top four bits, and a handle.
    pub page_address: u32,
    /// The scatter gather element's length in bytes, 24 bits.
    pub sge_length: u32,
    /// The element's flags: d3 for data from the controller or none, d7 for data to it.
    pub sge_flags: u8,
    /// The address of the page's buffer.
    pub sge_address: u64,
}

impl ConfigAsk {
    /// A request that has in each row 0 or the first number that the row's rule names.
    pub const BLANK: ConfigAsk = ConfigAsk {
        action: 0,
        sgl_flags: 0,
        chain_offset: 0,
        function: 0x04,
        ext_page_length: 0,
        ext_page_type: 0,
        msg_flags: 0,
        vp_id: 0,
        vf_id: 0,
        reserved_0a: 0,
        reserved_0c: 0,
        proxy_vf_id: 0,
        reserved_0e: 0,
        reserved_10: 0,
        page_version: 0,
        page_length: 0,
        page_number: 0,
        page_type: 0,
        page_address: 0,
        sge_length: 0,
        sge_flags: 0xd3,
        sge_address: 0,
    };

    /// The layout: 22 rows, 40 bytes.
    pub fn layout() -> Layout<22>
        ensures { result ≡ config_ask_layout }
    {
        Layout::new(&CONFIG_ASK_ROWS, 40)
    }

    /// The fields' numbers in the layout's order.
    pub fn values(&self) -> [u64; 22]
        ensures { result ≡ config_ask_values self.now }
    {
        [
            u64::from(self.action),
            u64::from(self.sgl_flags),
            u64::from(self.chain_offset),
            u64::from(self.function),
            u64::from(self.ext_page_length),
            u64::from(self.ext_page_type),
            u64::from(self.msg_flags),
            u64::from(self.vp_id),
            u64::from(self.vf_id),
            u64::from(self.reserved_0a),
            u64::from(self.reserved_0c),
            u64::from(self.proxy_vf_id),
            u64::from(self.reserved_0e),
            u64::from(self.reserved_10),
            u64::from(self.page_version),
            u64::from(self.page_length),
            u64::from(self.page_number),
            u64::from(self.page_type),
            u64::from(self.page_address),
            u64::from(self.sge_length),
            u64::from(self.sge_flags),
            self.sge_address,
        ]
    }

    // The message whose fields are the low bytes of these numbers.
    fn from_values(values: &[u64; 22]) -> ConfigAsk
        ensures { config_ask_values result ≡ cut_from config_ask_layout.rows values.now 0 }
    {
        ConfigAsk {
            action: low!(values[0], 1),
            sgl_flags: low!(values[1], 1),
            chain_offset: low!(values[2], 1),
            function: low!(values[3], 1),
            ext_page_length: low!(values[4], 2),
            ext_page_type: low!(values[5], 1),
            msg_flags: low!(values[6], 1),
            vp_id: low!(values[7], 1),
            vf_id: low!(values[8], 1),
            reserved_0a: low!(values[9], 2),
            reserved_0c: low!(values[10], 1),
            proxy_vf_id: low!(values[11], 1),
            reserved_0e: low!(values[12], 2),
            reserved_10: low!(values[13], 4),
            page_version: low!(values[14], 1),
            page_length: low!(values[15], 1),
            page_number: low!(values[16], 1),
            page_type: low!(values[17], 1),
            page_address: low!(values[18], 4),
            sge_length: low!(values[19], 3),
            sge_flags: low!(values[20], 1),
            sge_address: low!(values[21], 8),
        }
    }
}

/// Reads the message from the front of the bytes: the message that they stand for, or their first
/// fault. Bytes past the message play no part.
///
/// # Errors
/// `Short` exactly where there are fewer than 40 bytes; else `Field` with the least offset whose
/// row breaks its rule.
pub fn decode_config_ask(bytes: &[u8]) -> Result<ConfigAsk, Fault>
    ensures read { MatchResult result (λ m. ConfigAskStands m bytes.now)
        (λ fault. first_fault config_ask_layout bytes.now ≡ Some fault) }
    ensures only { (m : ConfigAsk) → ConfigAskStands m bytes.now → result ≡ Ok m }
    ensures fitting { IfOk result (λ m. IsTrue (values_fit config_ask_layout.rows (config_ask_values m))) }
{
    let values = read(&ConfigAsk::layout(), bytes)?;
    Ok(ConfigAsk::from_values(&values))
}

/// Whether each field fits its row's width and rule, so that some bytes stand for the message.
pub fn config_ask_fits(m: &ConfigAsk) -> bool
    ensures { result ≡ values_fit config_ask_layout.rows (config_ask_values m.now) }
{
    fits(&ConfigAsk::layout(), &m.values())
}

/// Writes the message's 40 bytes, from which it is read back, and gives their number. The bytes
/// past them stay.
pub fn encode_config_ask(m: &ConfigAsk, out: &mut [u8]) -> usize
    requires fitting { IsTrue (values_fit config_ask_layout.rows (config_ask_values m.now)) }
    requires room { 40 ≤ length out.old }
    ensures long { result ≡ 40 }
    ensures stands { ConfigAskStands m.now out.new }
    ensures rest { drop 40 out.new ≡ drop 40 out.old }
{
    write(&ConfigAsk::layout(), &m.values(), out);
    40
}
