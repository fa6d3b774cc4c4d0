//! The names of the lanes.

/// A lane: a queue from one party to another.
#[derive(Clone, Copy)]
pub enum LaneName {
    /// From the host to the controller: register accesses, posted requests, returned reply frames.
    Down,
    /// From the controller to the host: read values, and the replies of reply post queue 0.
    Up,
    /// From the controller to the host: the replies of the reply post queue of this number, 1 to 7.
    UpOn(u8),
    /// From the controller to the fabric.
    Out,
    /// From the fabric to the controller.
    Back,
    /// From the submitter of this number, 0 to 7, to the host.
    Ask(u8),
    /// From the host to the submitter of this number, 0 to 7.
    Tell(u8),
}
