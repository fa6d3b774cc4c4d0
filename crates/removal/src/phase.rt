//! The phases of a device handle.

use mpi_names::{Address, Smid};

/// How far the host is with a device handle. A phase with a [Smid] has a post with that identifier on
/// its way; a waiting phase has no identifier yet.
#[derive(Clone, Copy, Debug, PartialEq, Eq)]
pub enum Phase {
    /// No device has the handle.
    Absent,
    /// A device was added. The read of its page waits.
    WaitRead,
    /// The page is being read.
    Reading(Smid),
    /// The device has this address and takes commands.
    Ready(Address),
    /// The device is gone. The target reset waits.
    WaitHigh,
    /// The target is being reset.
    Resetting(Smid),
    /// The target was reset. The remove device waits.
    WaitInternal,
    /// The device is being removed.
    Removing(Smid),
}
