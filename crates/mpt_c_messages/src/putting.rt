//! Bytes for a buffer of C's.
ghost use Rattle.std.specs.Prelude.{◌≡◌, ◌≤◌, length};
ghost use Rattle.mpt_c_messages.specs.Putting.{IsPut, over};

use crate::call_code::CallCode;

/// Writes the bytes to the front of the buffer, if they fit, and their number to `length`: the given
/// code, or ShortBuffer, and then the buffer stays.
pub fn put_bytes(bytes: &[u8], code: CallCode, out: &mut [u8], length: &mut usize) -> CallCode
    ensures { IsPut bytes.now code out.old out.new length.new result }
{
    *length = bytes.len();
    if bytes.len() > out.len() {
        return CallCode::ShortBuffer;
    }
    put_front(bytes, out);
    code
}

/// Writes the bytes at the front of the buffer. The others stay.
pub fn put_front(bytes: &[u8], out: &mut [u8])
    requires { length bytes.now ≤ length out.old }
    ensures { out.new ≡ over bytes.now out.old }
{
    out[..bytes.len()].copy_from_slice(bytes);
}
