//! Where a reply frame is, as the host knows it.

/// Where a reply frame is.
#[derive(Clone, Copy)]
pub enum HostFrame {
    /// The host has it.
    Held,
    /// Its return is in the host's outbox.
    Out,
    /// It is on its way, or the controller has it.
    Away,
}
