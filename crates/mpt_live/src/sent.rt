//! What lanes between threads carry.
ghost use Rattle.std.specs.Prelude.{◌≤◌, ◌^◌};

/// The last stamp that an item can have: a party whose clock is there makes no further move.
pub const LAST_STAMP: u64 = 1 << 61;

/// An item with the stamp of its put.
#[derive(Drop)]
pub struct Sent<T> {
    /// The stamp, at most `LAST_STAMP`.
    pub stamp: u64,
    /// The item.
    pub item: T,
    ghost within: { stamp ≤ 2 ^ 61 },
}
