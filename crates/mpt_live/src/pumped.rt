//! What a pump has done.

/// What a call of `pump` has done.
#[derive(Clone, Copy, Debug, PartialEq, Eq)]
pub struct Pumped {
    /// How many moves it made, at most the quota.
    pub moves: u32,
    /// Whether the end has ended: it makes no further move.
    pub ended: bool,
}
