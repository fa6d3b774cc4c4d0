//! Configuration pages (mpi2_cnfg.h).

/// Action: the header of a page.
pub const MPI2_CONFIG_ACTION_PAGE_HEADER: u8 = 0x00;

/// Action: a page as it is now.
pub const MPI2_CONFIG_ACTION_PAGE_READ_CURRENT: u8 = 0x01;

/// PageType of a page whose type ExtPageType says.
pub const MPI2_CONFIG_PAGETYPE_EXTENDED: u8 = 0x0f;

/// ExtPageType of the pages of SAS devices.
pub const MPI2_CONFIG_EXTPAGETYPE_SAS_DEVICE: u8 = 0x12;

/// PageVersion of SAS Device Page 0.
pub const MPI2_SASDEVICE0_PAGEVERSION: u8 = 0x08;

/// PageAddress: the page of the device whose handle the low 16 bits say.
pub const MPI2_SAS_DEVICE_PGAD_FORM_HANDLE: u32 = 0x2000_0000;

/// The bytes of SAS Device Page 0 (MPI2_CONFIG_PAGE_SAS_DEV_0).
pub const SAS_DEVICE_PAGE_0_BYTES: u32 = 56;

/// The same in words of 4 bytes, as ExtPageLength has it.
pub const SAS_DEVICE_PAGE_0_DWORDS: u16 = 14;
