//! The data of a command or of a result.
ghost use Rattle.std.specs.Prelude.{◌≡◌, ◌≤◌, ◌==◌, [], IfOk, length, vec_len};

use crate::out_of_memory::OutOfMemory;
use mpi_names::MAX_TRANSFER;
use std::alloc::Global;
use std::marker::Model;

/// At most 4,096 bytes. A contract sees them as a list.
#[derive(Debug, Drop)]
pub struct Bytes {
    items: Vec<u8>,
}

impl Model for Bytes {
    ghost use Rattle.std.specs.Prelude.{ℕ, List, ◌≤◌, length};

    ghost Value = { List ℕ };

    ghost view = { λ b. b.items.items };

    ghost invariant = { λ b. length b.items.items ≤ 4096 };
}

impl Bytes {
    /// The greatest number of bytes.
    pub const MAX_LEN: usize = MAX_TRANSFER;

    /// These bytes, in the memory that they are in. The caller keeps them to `MAX_LEN`.
    pub fn new(items: Vec<u8>) -> Bytes
        requires { vec_len items ≤ 4096 }
        ensures { result ≡ items.items }
    {
        Bytes { items }
    }

    /// No bytes.
    pub fn empty(alloc: Global) -> Bytes
        ensures { result ≡ [] }
    {
        Bytes {
            items: Vec::new(alloc),
        }
    }

    /// The bytes as a slice.
    pub fn as_slice(&self) -> &[u8]
        ensures value { result.now ≡ self.now }
        ensures short { length self.now ≤ 4096 }
    {
        &self.items
    }

    /// The bytes, in the memory that they are in.
    pub fn into_vec(self) -> Vec<u8>
        ensures value { result.items ≡ self }
        ensures short { length self ≤ 4096 }
    {
        self.items
    }

    /// How many bytes there are.
    pub fn len(&self) -> usize
        ensures value { result ≡ length self.now }
        ensures short { result ≤ 4096 }
    {
        self.items.len()
    }

    /// Whether there are none.
    pub fn is_empty(&self) -> bool
        ensures { result ≡ (length self.now == 0) }
    {
        self.items.is_empty()
    }

    /// An equal value, or OutOfMemory.
    pub fn copy(&self, alloc: Global) -> Result<Bytes, OutOfMemory>
        ensures { IfOk result (λ b. b ≡ self.now) }
    {
        let mut items = Vec::new(alloc);
        items.extend_from_slice(&self.items)?;
        Ok(Bytes { items })
    }
}
