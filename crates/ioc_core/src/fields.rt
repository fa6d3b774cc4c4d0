//! The fields of messages.
ghost use Rattle.std.specs.Prelude.{◌≡◌, ◌<◌, slice_index};
ghost use Rattle.mpi_layout.specs.Rows.{field};

/// The byte at an offset: 0 past the end.
pub fn byte_at(bytes: &[u8], at: u16) -> u8
    ensures byte { result ≡ slice_index bytes.now at }
    ensures field { result ≡ field bytes.now at 1 }
{
    let place = usize::from(at);
    if place < bytes.len() { bytes[place] } else { 0 }
}

/// The little-endian number of two bytes at an offset. Those past the end count as 0.
pub fn word_at(bytes: &[u8], at: u16) -> u16
    requires { at < 128 }
    ensures { result ≡ field bytes.now at 2 }
{
    u16::from(byte_at(bytes, at)) + 0x100 * u16::from(byte_at(bytes, at + 1))
}
