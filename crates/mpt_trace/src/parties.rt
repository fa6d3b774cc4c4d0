//! The parties of a trace.

/// A party: each entry of a trace is of one.
#[derive(Clone, Copy)]
pub enum Party {
    /// The host's driver.
    Host,
    /// The controller.
    Ioc,
    /// The fabric with its disks.
    Fabric,
    /// The submitter of this number, 0 to 7, in a threaded session.
    Submitter(u8),
}
