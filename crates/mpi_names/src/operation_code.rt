//! The OPERATION CODE of a CDB.

/// TEST UNIT READY (SPC-4).
pub const TEST_UNIT_READY: u8 = 0x00;

/// INQUIRY (SPC-4).
pub const INQUIRY: u8 = 0x12;

/// READ CAPACITY(10) (SBC-3).
pub const READ_CAPACITY_10: u8 = 0x25;

/// READ(10) (SBC-3).
pub const READ_10: u8 = 0x28;

/// WRITE(10) (SBC-3).
pub const WRITE_10: u8 = 0x2a;

/// READ(16) (SBC-3).
pub const READ_16: u8 = 0x88;

/// WRITE(16) (SBC-3).
pub const WRITE_16: u8 = 0x8a;
