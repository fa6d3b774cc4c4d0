//! Standard INQUIRY data.
ghost use Rattle.std.specs.Prelude.{◌≡◌, length};
ghost use Rattle.scsi_disk.specs.Performed.{inquiry_data as inquiry_data_of};

/// Standard INQUIRY data (SPC-4): peripheral device type 0, version 06, response data format 2,
/// 31 bytes after the fifth, CMDQUE; then the vendor, the product and its revision.
pub const INQUIRY_DATA: &[u8; 36] = b"\x00\x00\x06\x02\x1f\x00\x00\x02MPTSIM  SIMULATED DISK  0001";

/// The standard INQUIRY data of every disk.
#[tactic(auto, unfolding(crate::specs::Performed::inquiry_data))]
pub fn inquiry_data() -> &'static [u8]
    ensures value { result.now ≡ inquiry_data_of }
    ensures len { length result.now ≡ 36 }
{
    INQUIRY_DATA
}
