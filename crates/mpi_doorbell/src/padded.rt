//! Messages in an array of 128 bytes.
ghost use Rattle.std.specs.Prelude.{◌≡◌, ◌≤◌, length};
ghost use Rattle.mpi_doorbell.specs.Bytes.{padded};

/// The message, and zeros after it.
pub fn pad(message: &[u8]) -> [u8; 128]
    requires { length message.now ≤ 128 }
    ensures { result ≡ padded message.now }
{
    let mut bytes = [0; 128];
    bytes[..message.len()].copy_from_slice(message);
    bytes
}
