//! Where an identifier is, as the host knows it.

/// Where an identifier is.
#[derive(Clone, Copy, Debug, PartialEq, Eq)]
pub enum HostSmid {
    /// It is free.
    Free,
    /// Its command was answered, and an abort that names it is open.
    Parked,
    /// Its post is in the host's outbox.
    Out,
    /// Its post is on its way, or was taken.
    Away,
}
