//! A SAS IO unit control request.
ghost use Rattle.std.specs.Prelude.{◌≡◌, ◌≤◌, IsTrue, IfOk, MatchResult, Ok, Some, length, drop};
ghost use Rattle.mpi_layout.specs.Rows.{cut_from, first_fault, values_fit};
ghost use Rattle.ioc_msgs.specs.UnitControl.{UnitControlStands, unit_control_layout, unit_control_values};

use mpi_layout::{Fault, Layout, Row, Rule, fits, low, number, read, write};

// mpi2_sas.h, MPI2_SAS_IOUNIT_CONTROL_REQUEST.
static UNIT_CONTROL_ROWS: [Row; 20] = [
    number!(0x00, 1, "Operation", Rule::Any),
    number!(0x01, 1, "Reserved", Rule::Zero),
    number!(0x02, 1, "ChainOffset", Rule::Zero),
    number!(0x03, 1, "Function", Rule::Is(0x1b)),
    number!(0x04, 2, "DevHandle", Rule::Any),
    number!(0x06, 1, "IOCParameter", Rule::Any),
    number!(0x07, 1, "MsgFlags", Rule::Zero),
    number!(0x08, 1, "VP_ID", Rule::Zero),
    number!(0x09, 1, "VF_ID", Rule::Zero),
    number!(0x0a, 2, "Reserved", Rule::Zero),
    number!(0x0c, 2, "Reserved", Rule::Zero),
    number!(0x0e, 1, "PhyNum", Rule::Any),
    number!(0x0f, 1, "PrimFlags", Rule::Any),
    number!(0x10, 4, "Primitive", Rule::Any),
    number!(0x14, 1, "LookupMethod", Rule::Any),
    number!(0x15, 1, "Reserved", Rule::Zero),
    number!(0x16, 2, "SlotNumber", Rule::Any),
    number!(0x18, 8, "LookupAddress", Rule::Any),
    number!(0x20, 4, "IOCParameterValue", Rule::Any),
    number!(0x24, 8, "Reserved", Rule::Zero),
];

/// A SAS IO unit control request (mpi2_sas.h, MPI2_SAS_IOUNIT_CONTROL_REQUEST): an operation on a
/// device, a phy or the unit. 44 bytes.
#[derive(Clone, Copy, Debug, PartialEq, Eq)]
pub struct UnitControl {
    /// What is to be done: 0d removes a device.
    pub operation: u8,
    /// Reserved, 0.
    pub reserved_01: u8,
    /// Where a chain element lies, in dwords; 0 for none.
    pub chain_offset: u8,
    /// The message's function: 1b, SAS IO unit control.
    pub function: u8,
    /// The device's handle.
    pub dev_handle: u16,
    /// Which parameter of the controller is meant.
    pub ioc_parameter: u8,
    /// Flags of the message, 0.
    pub msg_flags: u8,
    /// The virtual port, 0.
    pub vp_id: u8,
    /// The virtual function, 0.
    pub vf_id: u8,
    /// Reserved, 0.
    pub reserved_0a: u16,
    /// Reserved, 0.
    pub reserved_0c: u16,
    /// The phy's number.
    pub phy_num: u8,
    /// Flags of the primitive.
    pub prim_flags: u8,
    /// The primitive that is to be sent.
    pub primitive: u32,
    /// How a device is looked up.
    pub lookup_method: u8,
    /// Reserved, 0.
    pub reserved_15: u8,
    /// The slot in the enclosure.
    pub slot_number: u16,
    /// The address that is looked up.
    pub lookup_address: u64,
    /// The parameter's value.
    pub ioc_parameter_value: u32,
    /// Reserved, 0.
    pub reserved_24: u64,
}

impl UnitControl {
    /// A request that has in each row 0 or the first number that the row's rule names.
    pub const BLANK: UnitControl = UnitControl {
        operation: 0,
        reserved_01: 0,
        chain_offset: 0,
        function: 0x1b,
        dev_handle: 0,
        ioc_parameter: 0,
        msg_flags: 0,
        vp_id: 0,
        vf_id: 0,
        reserved_0a: 0,
        reserved_0c: 0,
        phy_num: 0,
        prim_flags: 0,
        primitive: 0,
        lookup_method: 0,
        reserved_15: 0,
        slot_number: 0,
        lookup_address: 0,
        ioc_parameter_value: 0,
        reserved_24: 0,
    };

    /// The layout: 20 rows, 44 bytes.
    pub fn layout() -> Layout<20>
        ensures { result ≡ unit_control_layout }
    {
        Layout::new(&UNIT_CONTROL_ROWS, 44)
    }

    /// The fields' numbers in the layout's order.
    pub fn values(&self) -> [u64; 20]
        ensures { result ≡ unit_control_values self.now }
    {
        [
            u64::from(self.operation),
            u64::from(self.reserved_01),
            u64::from(self.chain_offset),
            u64::from(self.function),
            u64::from(self.dev_handle),
            u64::from(self.ioc_parameter),
            u64::from(self.msg_flags),
            u64::from(self.vp_id),
            u64::from(self.vf_id),
            u64::from(self.reserved_0a),
            u64::from(self.reserved_0c),
            u64::from(self.phy_num),
            u64::from(self.prim_flags),
            u64::from(self.primitive),
            u64::from(self.lookup_method),
            u64::from(self.reserved_15),
            u64::from(self.slot_number),
            self.lookup_address,
            u64::from(self.ioc_parameter_value),
            self.reserved_24,
        ]
    }

    // The message whose fields are the low bytes of these numbers.
    fn from_values(values: &[u64; 20]) -> UnitControl
        ensures { unit_control_values result ≡ cut_from unit_control_layout.rows values.now 0 }
    {
        UnitControl {
            operation: low!(values[0], 1),
            reserved_01: low!(values[1], 1),
            chain_offset: low!(values[2], 1),
            function: low!(values[3], 1),
            dev_handle: low!(values[4], 2),
            ioc_parameter: low!(values[5], 1),
            msg_flags: low!(values[6], 1),
            vp_id: low!(values[7], 1),
            vf_id: low!(values[8], 1),
            reserved_0a: low!(values[9], 2),
            reserved_0c: low!(values[10], 2),
            phy_num: low!(values[11], 1),
            prim_flags: low!(values[12], 1),
            primitive: low!(values[13], 4),
            lookup_method: low!(values[14], 1),
            reserved_15: low!(values[15], 1),
            slot_number: low!(values[16], 2),
            lookup_address: low!(values[17], 8),
            ioc_parameter_value: low!(values[18], 4),
            reserved_24: low!(values[19], 8),
        }
    }
}

/// Reads the message from the front of the bytes: the message that they stand for, or their first
/// fault. Bytes past the message play no part.
///
/// # Errors
/// `Short` exactly where there are fewer than 44 bytes; else `Field` with the least offset whose
/// row breaks its rule.
pub fn decode_unit_control(bytes: &[u8]) -> Result<UnitControl, Fault>
    ensures read { MatchResult result (λ m. UnitControlStands m bytes.now)
        (λ fault. first_fault unit_control_layout bytes.now ≡ Some fault) }
    ensures only { (m : UnitControl) → UnitControlStands m bytes.now → result ≡ Ok m }
    ensures fitting { IfOk result (λ m. IsTrue (values_fit unit_control_layout.rows (unit_control_values m))) }
{
    let values = read(&UnitControl::layout(), bytes)?;
    Ok(UnitControl::from_values(&values))
}

/// Whether each field fits its row's width and rule, so that some bytes stand for the message.
pub fn unit_control_fits(m: &UnitControl) -> bool
    ensures { result ≡ values_fit unit_control_layout.rows (unit_control_values m.now) }
{
    fits(&UnitControl::layout(), &m.values())
}

/// Writes the message's 44 bytes, from which it is read back, and gives their number. The bytes
/// past them stay.
pub fn encode_unit_control(m: &UnitControl, out: &mut [u8]) -> usize
    requires fitting { IsTrue (values_fit unit_control_layout.rows (unit_control_values m.now)) }
    requires room { 44 ≤ length out.old }
    ensures long { result ≡ 44 }
    ensures stands { UnitControlStands m.now out.new }
    ensures rest { drop 44 out.new ≡ drop 44 out.old }
{
    write(&UnitControl::layout(), &m.values(), out);
    44
}
