//! Command descriptor blocks.
ghost use Rattle.std.specs.Prelude.{◌≡◌, ◌≤◌, ◌+◌, ◌<◌, ◌==◌, drop, length, slice_index};
ghost use Rattle.byteorder.specs.Endian.{big_number};

use byteorder::{BigEndian, ByteOrder};
use std::marker::Model;

/// A command descriptor block (CDB) of at most 32 bytes, the size of the CDB of a SCSI IO request
/// (mpi2_init.h, MPI2_SCSI_IO_CDB_UNION). A contract sees it as the list of its bytes.
#[derive(Debug, Drop)]
pub struct Cdb {
    // The bytes, and zeros after them.
    bytes: [u8; 32],
    len: usize,
}

impl Model for Cdb {
    ghost use Rattle.std.specs.Prelude.{ℕ, List, take};

    ghost Value = { List ℕ };

    ghost view = { λ c. take c.len c.bytes };

    ghost use Rattle.std.specs.Prelude.{◌≡◌, ◌≤◌, slice_index};

    ghost invariant = { λ c. (c.len ≤ 32) × ((k : ℕ) → c.len ≤ k → slice_index c.bytes k ≡ 0) };
}

impl Cdb {
    /// The greatest number of bytes.
    pub const MAX_LEN: usize = 32;

    /// A CDB of these bytes. The caller keeps them to `MAX_LEN`.
    pub fn new(bytes: &[u8]) -> Cdb
        requires { length bytes.now ≤ 32 }
        ensures { result ≡ bytes.now }
    {
        let mut padded = [0; 32];
        padded[..bytes.len()].copy_from_slice(bytes);
        Cdb {
            bytes: padded,
            len: bytes.len(),
        }
    }

    /// The bytes as a slice.
    pub fn as_slice(&self) -> &[u8]
        ensures value { result.now ≡ self.now }
        ensures short { length self.now ≤ 32 }
    {
        &self.bytes[..self.len]
    }

    /// How many bytes there are.
    pub fn len(&self) -> usize
        ensures value { result ≡ length self.now }
        ensures short { result ≤ 32 }
    {
        self.len
    }

    /// Whether there are none.
    pub fn is_empty(&self) -> bool
        ensures { result ≡ (length self.now == 0) }
    {
        self.len == 0
    }

    /// An equal value. It takes no memory.
    pub fn copy(&self) -> Cdb
        ensures { result ≡ self.now }
    {
        Cdb {
            bytes: self.bytes,
            len: self.len,
        }
    }

    // The byte at a place, or 0 past the end.
    pub(crate) fn byte(&self, at: usize) -> u8
        requires { at < 32 }
        ensures { result ≡ slice_index self.now at }
    {
        self.bytes[at]
    }

    // The big-endian number in the two bytes from a place on. Zeros follow the end.
    pub(crate) fn number_of_2(&self, at: usize) -> u16
        requires { at + 2 ≤ 32 }
        ensures { result ≡ big_number 2 (drop at self.now) }
    {
        let field = &self.bytes[at..];
        BigEndian::read_u16(field)
    }

    // The big-endian number in the four bytes from a place on. Zeros follow the end.
    pub(crate) fn number_of_4(&self, at: usize) -> u32
        requires { at + 4 ≤ 32 }
        ensures { result ≡ big_number 4 (drop at self.now) }
    {
        let field = &self.bytes[at..];
        BigEndian::read_u32(field)
    }

    // The big-endian number in the eight bytes from a place on. Zeros follow the end.
    pub(crate) fn number_of_8(&self, at: usize) -> u64
        requires { at + 8 ≤ 32 }
        ensures { result ≡ big_number 8 (drop at self.now) }
    {
        let field = &self.bytes[at..];
        BigEndian::read_u64(field)
    }
}
