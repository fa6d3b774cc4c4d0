//! The bytes of a scatter list: the first area, in the request, and the chain frames.
ghost use Rattle.std.specs.Prelude.{◌≡◌, length};

use std::marker::Model;

/// A frame that a chain element leads to.
#[derive(Clone, Copy, Debug, PartialEq, Eq)]
pub struct ChainFrame {
    /// Where it lies in the host's memory.
    pub address: u64,
    /// What is in it: up to ten elements, and zeros behind them.
    pub bytes: [u8; 128],
}

impl ChainFrame {
    /// The bytes as an area.
    pub(crate) fn area(&self) -> &[u8]
        ensures value { result.now ≡ self.now.bytes }
        ensures length { length result.now ≡ 128 }
    {
        &self.bytes
    }
}

/// The frames of a chained list. A contract sees them as a list.
#[derive(Debug, Drop)]
pub struct Frames {
    items: Vec<ChainFrame>,
}

impl Model for Frames {
    ghost use Rattle.std.specs.Prelude.{List};
    ghost use Rattle.mpt_sgl.specs.declared.chained.ChainFrame.{ChainFrame};

    ghost Value = { List ChainFrame };

    ghost view = { λ f. f.items.items };
}

impl Frames {
    /// These frames, in the memory that they are in.
    pub fn new(items: Vec<ChainFrame>) -> Frames
        ensures { result ≡ items.items }
    {
        Frames { items }
    }

    /// The frames as a slice.
    pub fn as_slice(&self) -> &[ChainFrame]
        ensures { result.now ≡ self.now }
    {
        &self.items
    }
}

/// The bytes of a scatter list.
#[derive(Debug, Drop)]
pub struct Chained {
    /// The request's ChainOffset: 1b where the first area ends with a chain element, which stands
    /// 0x1b times 4 bytes into the request, and else 00.
    pub offset: u8,
    /// The bytes 60 to 7f of the request: up to two elements, and zeros behind them.
    pub first: [u8; 32],
    /// The frames, in the order of the chain.
    pub frames: Frames,
}
