//! A message's last bytes, which no row reads: so many count, and zeros stand behind them.
ghost use Rattle.std.specs.Prelude.{◌≡◌, ◌≤◌, ◌==◌, ◌++◌, length, drop};
ghost use Rattle.std.specs.List.{list_all};
ghost use Rattle.mpi_layout.specs.Tail.{padded};

// Writes the bytes at the front. The others stay.
fn put_front(bytes: &[u8], out: &mut [u8])
    requires { length bytes.now ≤ length out.old }
    ensures { out.new ≡ bytes.now ++ drop (length bytes.now) out.old }
{
    out[..bytes.len()].copy_from_slice(bytes);
}

/// The bytes, and zeros behind them.
pub fn padded<const N: usize>(bytes: &[u8]) -> [u8; N]
    requires { length bytes.now ≤ N }
    ensures { result ≡ padded N bytes.now }
{
    let mut all = [0; N];
    put_front(bytes, &mut all);
    all
}

/// Whether the bytes from this place on are 0.
pub fn is_zero_from(bytes: &[u8], from: usize) -> bool
    ensures { result ≡ list_all (λ byte. byte == 0) (drop from bytes.now) }
{
    bytes.iter().skip(from).all(|byte| *byte == 0)
}
