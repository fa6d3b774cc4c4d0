//! Why a command is refused.

/// ADDITIONAL SENSE CODE with qualifier 0 (SPC-4), under sense key ILLEGAL REQUEST.
#[derive(Clone, Copy, Debug)]
pub enum AdditionalSense {
    /// INVALID COMMAND OPERATION CODE.
    InvalidOperationCode = 0x20,
    /// LOGICAL BLOCK ADDRESS OUT OF RANGE.
    BlockAddressOutOfRange = 0x21,
    /// INVALID FIELD IN CDB.
    InvalidFieldInCdb = 0x24,
    /// LOGICAL UNIT NOT SUPPORTED.
    LogicalUnitNotSupported = 0x25,
}
