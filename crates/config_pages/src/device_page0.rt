//! SAS Device Page 0.
ghost use Rattle.std.specs.Prelude.{◌≡◌, ◌≤◌, IsTrue, IfOk, MatchResult, Ok, Some, length, drop};
ghost use Rattle.mpi_layout.specs.Rows.{cut_from, first_fault, values_fit};
ghost use Rattle.config_pages.specs.DevicePage0.{DevicePage0Stands, device_page0_layout, device_page0_values};

use mpi_layout::{Fault, Layout, Row, Rule, bytes, fits, low, number, read, write};

// mpi2_cnfg.h, MPI2_CONFIG_PAGE_SAS_DEV_0.
static DEVICE_PAGE0_ROWS: [Row; 23] = [
    number!(0x00, 1, "PageVersion", Rule::Any),
    number!(0x01, 1, "Reserved", Rule::Any),
    number!(0x02, 1, "PageNumber", Rule::Is(0)),
    number!(0x03, 1, "PageType", Rule::Any),
    number!(0x04, 2, "ExtPageLength", Rule::Any),
    number!(0x06, 1, "ExtPageType", Rule::Is(0x12)),
    number!(0x07, 1, "Reserved", Rule::Any),
    number!(0x08, 2, "Slot", Rule::Any),
    number!(0x0a, 2, "EnclosureHandle", Rule::Any),
    number!(0x0c, 8, "SASAddress", Rule::Any),
    number!(0x14, 2, "ParentDevHandle", Rule::Any),
    number!(0x16, 1, "PhyNum", Rule::Any),
    number!(0x17, 1, "AccessStatus", Rule::Any),
    number!(0x18, 2, "DevHandle", Rule::Any),
    number!(0x1a, 1, "AttachedPhyIdentifier", Rule::Any),
    number!(0x1b, 1, "ZoneGroup", Rule::Any),
    number!(0x1c, 4, "DeviceInfo", Rule::Any),
    number!(0x20, 2, "Flags", Rule::Any),
    number!(0x22, 1, "PhysicalPort", Rule::Any),
    number!(0x23, 1, "MaxPortConnections", Rule::Any),
    number!(0x24, 8, "DeviceName", Rule::Any),
    bytes!(0x2c, 8, "Rest", Rule::Any),
    bytes!(0x34, 4, "Rest", Rule::Any),
];

/// SAS Device Page 0 (mpi2_cnfg.h, MPI2_CONFIG_PAGE_SAS_DEV_0): what the controller knows of a
/// device, from a read of the configuration. 56 bytes.
#[derive(Clone, Copy, Debug, PartialEq, Eq)]
pub struct DevicePage0 {
    /// The page's version.
    pub page_version: u8,
    /// Reserved; kept as it is.
    pub reserved_01: u8,
    /// The page's number: 0.
    pub page_number: u8,
    /// The page's type: 0f is extended.
    pub page_type: u8,
    /// The page's length in dwords.
    pub ext_page_length: u16,
    /// The page's extended type: 12, SAS device.
    pub ext_page_type: u8,
    /// Reserved; kept as it is.
    pub reserved_07: u8,
    /// The slot in the enclosure.
    pub slot: u16,
    /// The enclosure's handle.
    pub enclosure_handle: u16,
    /// The device's SAS address.
    pub sas_address: u64,
    /// The handle of the expander, or of the controller, that the device is attached to.
    pub parent_dev_handle: u16,
    /// The parent's phy that the device is attached to.
    pub phy_num: u8,
    /// Whether the device can be used: 00 where it can.
    pub access_status: u8,
    /// The device's handle.
    pub dev_handle: u16,
    /// The device's own phy.
    pub attached_phy_identifier: u8,
    /// The device's zone group.
    pub zone_group: u8,
    /// Bits for what the device is: 1 end device, 400 SSP target.
    pub device_info: u32,
    /// Flags of the device: bit 0 is set where it is present.
    pub flags: u16,
    /// The controller's port.
    pub physical_port: u8,
    /// The most connections of the device's port.
    pub max_port_connections: u8,
    /// The device's world-wide name.
    pub device_name: u64,
    /// Fields that aren't read, 8 bytes.
    pub rest_2c: u64,
    /// Fields that aren't read, 4 bytes.
    pub rest_34: u32,
}

impl DevicePage0 {
    /// A page that has in each row 0 or the first number that the row's rule names.
    pub const BLANK: DevicePage0 = DevicePage0 {
        page_version: 0,
        reserved_01: 0,
        page_number: 0,
        page_type: 0,
        ext_page_length: 0,
        ext_page_type: 0x12,
        reserved_07: 0,
        slot: 0,
        enclosure_handle: 0,
        sas_address: 0,
        parent_dev_handle: 0,
        phy_num: 0,
        access_status: 0,
        dev_handle: 0,
        attached_phy_identifier: 0,
        zone_group: 0,
        device_info: 0,
        flags: 0,
        physical_port: 0,
        max_port_connections: 0,
        device_name: 0,
        rest_2c: 0,
        rest_34: 0,
    };

    /// The layout: 23 rows, 56 bytes.
    pub fn layout() -> Layout<23>
        ensures { result ≡ device_page0_layout }
    {
        Layout::new(&DEVICE_PAGE0_ROWS, 56)
    }

    /// The fields' numbers in the layout's order.
    pub fn values(&self) -> [u64; 23]
        ensures { result ≡ device_page0_values self.now }
    {
        [
            u64::from(self.page_version),
            u64::from(self.reserved_01),
            u64::from(self.page_number),
            u64::from(self.page_type),
            u64::from(self.ext_page_length),
            u64::from(self.ext_page_type),
            u64::from(self.reserved_07),
            u64::from(self.slot),
            u64::from(self.enclosure_handle),
            self.sas_address,
            u64::from(self.parent_dev_handle),
            u64::from(self.phy_num),
            u64::from(self.access_status),
            u64::from(self.dev_handle),
            u64::from(self.attached_phy_identifier),
            u64::from(self.zone_group),
            u64::from(self.device_info),
            u64::from(self.flags),
            u64::from(self.physical_port),
            u64::from(self.max_port_connections),
            self.device_name,
            self.rest_2c,
            u64::from(self.rest_34),
        ]
    }

    // The message whose fields are the low bytes of these numbers.
    fn from_values(values: &[u64; 23]) -> DevicePage0
        ensures { device_page0_values result ≡ cut_from device_page0_layout.rows values.now 0 }
    {
        DevicePage0 {
            page_version: low!(values[0], 1),
            reserved_01: low!(values[1], 1),
            page_number: low!(values[2], 1),
            page_type: low!(values[3], 1),
            ext_page_length: low!(values[4], 2),
            ext_page_type: low!(values[5], 1),
            reserved_07: low!(values[6], 1),
            slot: low!(values[7], 2),
            enclosure_handle: low!(values[8], 2),
            sas_address: low!(values[9], 8),
            parent_dev_handle: low!(values[10], 2),
            phy_num: low!(values[11], 1),
            access_status: low!(values[12], 1),
            dev_handle: low!(values[13], 2),
            attached_phy_identifier: low!(values[14], 1),
            zone_group: low!(values[15], 1),
            device_info: low!(values[16], 4),
            flags: low!(values[17], 2),
            physical_port: low!(values[18], 1),
            max_port_connections: low!(values[19], 1),
            device_name: low!(values[20], 8),
            rest_2c: low!(values[21], 8),
            rest_34: low!(values[22], 4),
        }
    }
}

/// Reads the page from the front of the bytes: the page that they stand for, or their first
/// fault. Bytes past the page play no part.
///
/// # Errors
/// `Short` exactly where there are fewer than 56 bytes; else `Field` with the least offset whose
/// row breaks its rule.
pub fn decode_device_page0(bytes: &[u8]) -> Result<DevicePage0, Fault>
    ensures read { MatchResult result (λ m. DevicePage0Stands m bytes.now)
        (λ fault. first_fault device_page0_layout bytes.now ≡ Some fault) }
    ensures only { (m : DevicePage0) → DevicePage0Stands m bytes.now → result ≡ Ok m }
    ensures fitting { IfOk result (λ m. IsTrue (values_fit device_page0_layout.rows (device_page0_values m))) }
{
    let values = read(&DevicePage0::layout(), bytes)?;
    Ok(DevicePage0::from_values(&values))
}

/// Whether each field fits its row's width and rule, so that some bytes stand for the page.
pub fn device_page0_fits(m: &DevicePage0) -> bool
    ensures { result ≡ values_fit device_page0_layout.rows (device_page0_values m.now) }
{
    fits(&DevicePage0::layout(), &m.values())
}

/// Writes the page's 56 bytes, from which it is read back, and gives their number. The bytes
/// past them stay.
pub fn encode_device_page0(m: &DevicePage0, out: &mut [u8]) -> usize
    requires fitting { IsTrue (values_fit device_page0_layout.rows (device_page0_values m.now)) }
    requires room { 56 ≤ length out.old }
    ensures long { result ≡ 56 }
    ensures stands { DevicePage0Stands m.now out.new }
    ensures rest { drop 56 out.new ≡ drop 56 out.old }
{
    write(&DevicePage0::layout(), &m.values(), out);
    56
}
