//! Why bytes are not a message of a layout.

/// The first fault of bytes under a layout.
#[derive(Clone, Copy, Debug, PartialEq, Eq)]
pub enum Fault {
    /// There are `have` bytes, and the layout needs `need`.
    Short { need: usize, have: usize },
    /// The row that begins at this offset, in bytes, breaks its rule.
    Field { at: u8 },
}
