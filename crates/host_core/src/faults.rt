//! Why a call of the host is refused.
ghost use Rattle.std.specs.Prelude.{◌≡◌, None};
ghost use Rattle.host_core.specs.Faults.{refusal_of};

use mpt_rules::{OutOfMemory, Why};
use mpt_trace::{Refusal, Up};

/// Why a call of the host is refused.
#[derive(Clone, Copy, Debug, PartialEq, Eq)]
pub enum HostFault {
    /// The submission's number was used before.
    NumberUsed,
    /// The controller isn't operational.
    NotOperational,
    /// No disk of the address is ready.
    NoDevice,
    /// The command doesn't fit: its length is too great or isn't the one that its CDB names.
    BadLength,
    /// All identifiers of the class are in use.
    NoIdentifier,
    /// No submission of the number is open.
    NotOpen,
    /// An abort of the number is open.
    AbortOpen,
    /// The host was started before.
    AlreadyStarted,
    /// The host wasn't started.
    NotStarted,
    /// A reset is on its way.
    AlreadyResetting,
    /// There was no memory left.
    OutOfMemory,
}

/// Why an item that came up isn't taken. It is handed back, and nothing has changed.
#[derive(Drop)]
pub enum TakeFault {
    /// There was no memory left.
    NoRoom {
        /// The item.
        item: Up,
    },
    /// The item can't come.
    Strange {
        /// The item.
        item: Up,
        /// The first cause that holds.
        why: Why,
    },
}

impl HostFault {
    /// The refusal that it stands for. None exactly for OutOfMemory.
    pub fn refusal(self) -> Option<Refusal>
        ensures refusal { result ≡ refusal_of self }
        ensures memory { result ≡ None → self ≡ HostFault.OutOfMemory }
    {
        let refusal = match self {
            HostFault::NumberUsed => Refusal::NumberUsed,
            HostFault::NotOperational => Refusal::NotOperational,
            HostFault::NoDevice => Refusal::NoDevice,
            HostFault::BadLength => Refusal::BadLength,
            HostFault::NoIdentifier => Refusal::NoIdentifier,
            HostFault::NotOpen => Refusal::NotOpen,
            HostFault::AbortOpen => Refusal::AbortOpen,
            HostFault::AlreadyStarted => Refusal::AlreadyStarted,
            HostFault::NotStarted => Refusal::NotStarted,
            HostFault::AlreadyResetting => Refusal::AlreadyResetting,
            HostFault::OutOfMemory => return None,
        };
        Some(refusal)
    }
}

impl From<OutOfMemory> for HostFault {
    ghost use Rattle.std.specs.Prelude.{◌≡◌};
    ghost use Rattle.host_core.specs.declared.faults.HostFault.TheVariants as fault;

    ghost from_gives = { λ _ e. e ≡ fault.OutOfMemory };

    fn from(_error: OutOfMemory) -> HostFault {
        HostFault::OutOfMemory
    }
}
