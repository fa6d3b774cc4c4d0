//! Why a call is refused.
use mpi_names::Address;

/// The cause of a refusal.
#[derive(Clone, Copy)]
pub enum Refusal {
    /// The submission's number was used before.
    NumberUsed,
    /// The controller isn't operational.
    NotOperational,
    /// The host knows no disk of the address that is ready.
    NoDevice,
    /// The command doesn't fit: its length is too great or isn't the one that its CDB names.
    BadLength,
    /// All identifiers of the class are in use.
    NoIdentifier,
    /// No submission of the number is open.
    NotOpen,
    /// An abort of the number is open.
    AbortOpen,
    /// The host was started before.
    AlreadyStarted,
    /// The host wasn't started.
    NotStarted,
    /// A reset is on its way.
    AlreadyResetting,
    /// Another disk is plugged at the phy.
    Occupied,
    /// The disk is plugged already.
    AlreadyPlugged,
    /// The disk was plugged as often as it may be, 100,000 times.
    PlugsSpent,
    /// The disk isn't plugged.
    NotPlugged,
}

/// A refused call, other than a submission.
#[derive(Clone, Copy)]
pub enum RefusedCall {
    /// To bring the controller up.
    Start,
    /// To reset the controller.
    Reset,
    /// To reset the controller's message unit.
    UnitReset,
    /// To abort the submission of this number.
    Abort(u32),
    /// To reset the disk of this address.
    TargetReset(Address),
    /// To plug the disk of this address.
    Plug(Address),
    /// To unplug the disk of this address.
    Unplug(Address),
}
