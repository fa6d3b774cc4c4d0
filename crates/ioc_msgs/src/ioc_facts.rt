//! An IOC Facts request.
ghost use Rattle.std.specs.Prelude.{◌≡◌, ◌≤◌, IsTrue, IfOk, MatchResult, Ok, Some, length, drop};
ghost use Rattle.mpi_layout.specs.Rows.{cut_from, first_fault, values_fit};
ghost use Rattle.ioc_msgs.specs.IocFacts.{IocFactsStands, ioc_facts_layout, ioc_facts_values};

use mpi_layout::{Fault, Layout, Row, Rule, fits, low, number, read, write};

// mpi2_ioc.h, MPI2_IOC_FACTS_REQUEST.
static IOC_FACTS_ROWS: [Row; 9] = [
    number!(0x00, 2, "Reserved", Rule::Zero),
    number!(0x02, 1, "ChainOffset", Rule::Zero),
    number!(0x03, 1, "Function", Rule::Is(0x03)),
    number!(0x04, 2, "Reserved", Rule::Zero),
    number!(0x06, 1, "Reserved", Rule::Zero),
    number!(0x07, 1, "MsgFlags", Rule::Zero),
    number!(0x08, 1, "VP_ID", Rule::Zero),
    number!(0x09, 1, "VF_ID", Rule::Zero),
    number!(0x0a, 2, "Reserved", Rule::Zero),
];

/// An IOC Facts request (mpi2_ioc.h, MPI2_IOC_FACTS_REQUEST): asks the controller for what it is
/// and can take. 12 bytes.
#[derive(Clone, Copy, Debug, PartialEq, Eq)]
pub struct IocFacts {
    /// Reserved, 0.
    pub reserved_00: u16,
    /// Where a chain element lies, in dwords; 0 for none.
    pub chain_offset: u8,
    /// The message's function: 03, IOC Facts.
    pub function: u8,
    /// Reserved, 0.
    pub reserved_04: u16,
    /// Reserved, 0.
    pub reserved_06: u8,
    /// Flags of the message, 0.
    pub msg_flags: u8,
    /// The virtual port, 0.
    pub vp_id: u8,
    /// The virtual function, 0.
    pub vf_id: u8,
    /// Reserved, 0.
    pub reserved_0a: u16,
}

impl IocFacts {
    /// A request that has in each row 0 or the first number that the row's rule names.
    pub const BLANK: IocFacts = IocFacts {
        reserved_00: 0,
        chain_offset: 0,
        function: 0x03,
        reserved_04: 0,
        reserved_06: 0,
        msg_flags: 0,
        vp_id: 0,
        vf_id: 0,
        reserved_0a: 0,
    };

    /// The layout: 9 rows, 12 bytes.
    pub fn layout() -> Layout<9>
        ensures { result ≡ ioc_facts_layout }
    {
        Layout::new(&IOC_FACTS_ROWS, 12)
    }

    /// The fields' numbers in the layout's order.
    pub fn values(&self) -> [u64; 9]
        ensures { result ≡ ioc_facts_values self.now }
    {
        [
            u64::from(self.reserved_00),
            u64::from(self.chain_offset),
            u64::from(self.function),
            u64::from(self.reserved_04),
            u64::from(self.reserved_06),
            u64::from(self.msg_flags),
            u64::from(self.vp_id),
            u64::from(self.vf_id),
            u64::from(self.reserved_0a),
        ]
    }

    // The message whose fields are the low bytes of these numbers.
    fn from_values(values: &[u64; 9]) -> IocFacts
        ensures { ioc_facts_values result ≡ cut_from ioc_facts_layout.rows values.now 0 }
    {
        IocFacts {
            reserved_00: low!(values[0], 2),
            chain_offset: low!(values[1], 1),
            function: low!(values[2], 1),
            reserved_04: low!(values[3], 2),
            reserved_06: low!(values[4], 1),
            msg_flags: low!(values[5], 1),
            vp_id: low!(values[6], 1),
            vf_id: low!(values[7], 1),
            reserved_0a: low!(values[8], 2),
        }
    }
}

/// Reads the message from the front of the bytes: the message that they stand for, or their first
/// fault. Bytes past the message play no part.
///
/// # Errors
/// `Short` exactly where there are fewer than 12 bytes; else `Field` with the least offset whose
/// row breaks its rule.
pub fn decode_ioc_facts(bytes: &[u8]) -> Result<IocFacts, Fault>
    ensures read { MatchResult result (λ m. IocFactsStands m bytes.now)
        (λ fault. first_fault ioc_facts_layout bytes.now ≡ Some fault) }
    ensures only { (m : IocFacts) → IocFactsStands m bytes.now → result ≡ Ok m }
    ensures fitting { IfOk result (λ m. IsTrue (values_fit ioc_facts_layout.rows (ioc_facts_values m))) }
{
    let values = read(&IocFacts::layout(), bytes)?;
    Ok(IocFacts::from_values(&values))
}

/// Whether each field fits its row's width and rule, so that some bytes stand for the message.
pub fn ioc_facts_fits(m: &IocFacts) -> bool
    ensures { result ≡ values_fit ioc_facts_layout.rows (ioc_facts_values m.now) }
{
    fits(&IocFacts::layout(), &m.values())
}

/// Writes the message's 12 bytes, from which it is read back, and gives their number. The bytes
/// past them stay.
pub fn encode_ioc_facts(m: &IocFacts, out: &mut [u8]) -> usize
    requires fitting { IsTrue (values_fit ioc_facts_layout.rows (ioc_facts_values m.now)) }
    requires room { 12 ≤ length out.old }
    ensures long { result ≡ 12 }
    ensures stands { IocFactsStands m.now out.new }
    ensures rest { drop 12 out.new ≡ drop 12 out.old }
{
    write(&IocFacts::layout(), &m.values(), out);
    12
}
