//! The 8 bytes of a descriptor.
ghost use Rattle.std.specs.Prelude.{◌≡◌, ◌≤◌, IsTrue};
ghost use Rattle.mpi_layout.specs.Rows.{Stands, values_fit};

use mpi_layout::{Layout, write};

// The bytes that stand for the values.
pub(crate) fn bytes_of<const N: usize>(layout: &Layout<N>, values: &[u64; N]) -> [u8; 8]
    requires profile { N ≤ 64 }
    requires fitting { IsTrue (values_fit layout.now.rows values.now) }
    requires long { layout.now.length ≡ 8 }
    ensures { Stands layout.now values.now result }
{
    let mut bytes = [0; 8];
    write(layout, values, &mut bytes);
    bytes
}
