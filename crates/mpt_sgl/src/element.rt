//! Elements, and the 12 bytes of each.
ghost use Rattle.std.specs.Prelude.{◌≡◌, ◌≤◌, ◌<◌, ◌^◌, IfSome, IsTrue, drop, length, length as count};
ghost use Rattle.mpi_layout.specs.Rows.{Stands};
ghost use Rattle.mpt_sgl.specs.Elements.{chain_element, chain_shape, element_at, element_layout, is_to_device, simple_element};
ghost use Rattle.mpt_sgl.specs.Segments.{element_count};
ghost use Rattle.mpt_sgl.specs.Spelling.{are_bytes};

use crate::list::Piece;
use mpi_layout::{Layout, Row, Rule, low, number, read, write};

// mpi2.h, MPI2_SGE_SIMPLE64 and MPI2_SGE_CHAIN64; of the latter the length has two bytes, and the
// third is NextChainOffset.
static ELEMENT_ROWS: [Row; 3] = [
    number!(0x00, 3, "Length", Rule::Any),
    number!(0x03, 1, "Flags", Rule::Any),
    number!(0x04, 8, "Address", Rule::Any),
];

/// The bytes of an element.
pub(crate) const ELEMENT_BYTES: usize = 12;

/// NextChainOffset, as the highest byte of the length, of a chain element that leads to a frame with
/// a chain element.
const CHAINED_FRAME: u32 = 0x1b_0000;

/// An element: of a piece, or one that leads to the next frame.
#[derive(Clone, Copy, Debug, PartialEq, Eq)]
pub(crate) struct Element {
    /// The piece's length, or 12 for each element of the next frame with NextChainOffset as the
    /// highest byte.
    pub length: u32,
    /// MPI2_SGE_FLAGS_*.
    pub flags: u8,
    /// Where the piece or the frame is.
    pub address: u64,
}

/// What an area has: so many elements of pieces, and then a chain element or none.
#[derive(Clone, Copy, Debug, PartialEq, Eq)]
pub(crate) struct Shape {
    pub simple: u8,
    pub chained: bool,
}

fn layout() -> Layout<3>
    ensures { result ≡ element_layout }
{
    Layout::new(&ELEMENT_ROWS, 12)
}

impl Element {
    /// The one element of the empty list.
    pub const EMPTY: Element = Element {
        length: 0,
        flags: 0xd3,
        address: u64::MAX,
    };

    /// The element of a piece with these flags, with what tells the direction added to them.
    pub fn simple(piece: &Piece, flags: u8, to_device: bool) -> Element
        requires { flags < 252 }
        ensures { result ≡ simple_element to_device flags piece.now }
    {
        Element {
            length: piece.len,
            flags: if to_device { flags + 4 } else { flags },
            address: piece.address,
        }
    }

    /// The chain element to the frame at this address, from which on so many pieces are left.
    pub fn chain(left: usize, address: u64) -> Element
        ensures { result ≡ chain_element left address }
    {
        let length = if left > 10 {
            CHAINED_FRAME + 120
        } else {
            12 * left as u32
        };
        Element {
            length,
            flags: 0x32,
            address,
        }
    }

    /// The element at the front of the bytes.
    pub fn read(bytes: &[u8]) -> Element
        requires { 12 ≤ length bytes.now }
        ensures element { result ≡ element_at bytes.now }
        ensures short { result.length < 2 ^ 24 }
    {
        match read(&layout(), bytes) {
            Ok(values) => Element {
                length: low!(values[0], 3),
                flags: low!(values[1], 1),
                address: values[2],
            },
            Err(_) => unreachable!(),
        }
    }

    /// Writes the element at the front of the bytes.
    pub fn write(&self, out: &mut [u8])
        requires room { 12 ≤ length out.old }
        requires short { self.now.length < 2 ^ 24 }
        ensures element { element_at out.new ≡ self.now }
        ensures rest { drop 12 out.new ≡ drop 12 out.old }
        ensures bytes { IsTrue (are_bytes out.new) }
    {
        put(self.length, self.flags, self.address, out);
    }

    /// Whether the flags say that the data go to the device (MPI2_SGE_FLAGS_HOST_TO_IOC).
    pub fn is_to_device(&self) -> bool
        ensures { result ≡ is_to_device self.now.flags }
    {
        self.flags & 0x04 != 0
    }

    /// What the frame has that a chain element leads to, or none where no frame can have it.
    pub fn next_shape(&self) -> Option<Shape>
        ensures shape { result ≡ chain_shape self.now.length }
        ensures room { IfSome result (λ shape. element_count shape ≤ 10) }
    {
        if self.length == CHAINED_FRAME + 120 {
            return Some(Shape {
                simple: 9,
                chained: true,
            });
        }
        if self.length < 24 || self.length > 120 || self.length % 12 != 0 {
            return None;
        }
        Some(Shape {
            simple: (self.length / 12) as u8,
            chained: false,
        })
    }
}

// Writes the numbers of an element at the front of the bytes.
fn put(length: u32, flags: u8, address: u64, out: &mut [u8])
    requires room { 12 ≤ count out.old }
    requires short { length < 2 ^ 24 }
    ensures element { element_at out.new ≡ record { length = length; flags = flags; address = address } }
    ensures rest { drop 12 out.new ≡ drop 12 out.old }
{
    let values = [u64::from(length), u64::from(flags), address];
    write(&layout(), &values, out);
}
