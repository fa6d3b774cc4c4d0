//! Scatter lists as the host thinks of them: pieces of memory and a direction.
ghost use Rattle.std.specs.Prelude.{◌≡◌};

use std::marker::Model;

/// A piece of the host's memory.
#[derive(Clone, Copy, Debug, PartialEq, Eq)]
pub struct Piece {
    /// Where it begins.
    pub address: u64,
    /// Its length in bytes, from 1 to 0xffffff.
    pub len: u32,
}

/// The pieces of a list. A contract sees them as a list.
#[derive(Debug, Drop)]
pub struct Pieces {
    items: Vec<Piece>,
}

impl Model for Pieces {
    ghost use Rattle.std.specs.Prelude.{List};
    ghost use Rattle.mpt_sgl.specs.declared.list.Piece.{Piece};

    ghost Value = { List Piece };

    ghost view = { λ p. p.items.items };
}

impl Pieces {
    /// These pieces, in the memory that they are in.
    pub fn new(items: Vec<Piece>) -> Pieces
        ensures { result ≡ items.items }
    {
        Pieces { items }
    }

    /// The pieces as a slice.
    pub fn as_slice(&self) -> &[Piece]
        ensures { result.now ≡ self.now }
    {
        &self.items
    }
}

/// A scatter list: up to 256 pieces, and where the data go. A list with no pieces isn't to the
/// device.
#[derive(Debug, Drop)]
pub struct List {
    /// The data go to the device.
    pub to_device: bool,
    /// The pieces, in the order in which the data fill or leave them.
    pub pieces: Pieces,
}
