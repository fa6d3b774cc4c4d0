//! The page that the controller answers of a disk.
ghost use Rattle.std.specs.Prelude.{◌≡◌, ◌<◌, IsTrue};
ghost use Rattle.mpi_layout.specs.Rows.{values_fit};
ghost use Rattle.config_pages.specs.DevicePage0.{device_page0_layout, device_page0_values};
ghost use Rattle.mpt_messages.specs.DevicePage.{disk_page, expander_handle};

use config_pages::DevicePage0;
use mpi_names::{
    Address, FIRST_EXPANDER_HANDLE, Handle, MPI2_CONFIG_PAGETYPE_EXTENDED,
    MPI2_SASDEVICE0_PAGEVERSION, SAS_DEVICE_PAGE_0_DWORDS,
};

// The device handle of an expander.
pub(crate) fn expander_handle(expander: u8) -> Handle
    requires { expander < 16 }
    ensures { result ≡ expander_handle expander }
{
    FIRST_EXPANDER_HANDLE + u16::from(expander)
}

/// SAS Device Page 0 of the disk with this handle and SAS address at a phy of an expander
/// (mpi2_cnfg.h, MPI2_CONFIG_PAGE_SAS_DEV_0): a present SSP target. The expander is below 16.
pub fn device_page(handle: Handle, address: Address, expander: u8, phy: u8) -> DevicePage0
    requires { expander < 16 }
    ensures page { result ≡ disk_page handle address expander phy }
    ensures fitting { IsTrue (values_fit device_page0_layout.rows (device_page0_values result)) }
{
    DevicePage0 {
        page_version: MPI2_SASDEVICE0_PAGEVERSION,
        page_type: MPI2_CONFIG_PAGETYPE_EXTENDED,
        ext_page_length: SAS_DEVICE_PAGE_0_DWORDS,
        slot: u16::from(phy),
        enclosure_handle: 1,
        sas_address: address,
        parent_dev_handle: expander_handle(expander),
        phy_num: phy,
        dev_handle: handle,
        device_info: 0x0000_0401,
        flags: 0x0001,
        max_port_connections: 1,
        device_name: address,
        ..DevicePage0::BLANK
    }
}
