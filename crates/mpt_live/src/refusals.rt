//! The causes for which a call is refused, as entries name them.
ghost use Rattle.std.specs.Prelude.{◌≡◌, IfOk, Some};
ghost use Rattle.std.specs.Option.{option_map};
ghost use Rattle.host_core.specs.Faults.{refusal_of as refusal_of_host};
ghost use Rattle.mpt_rules.specs.World.Inputs.{told_cause};
ghost use Rattle.sas_fabric.specs.Faults.{refusal_of as refusal_of_fabric};

use host_core::HostFault;
use mpt_journal::OutOfMemory;
use mpt_trace::Refusal;
use sas_fabric::PlugFault;

/// The cause that a fault of the host names; want of memory is none.
pub(crate) fn host_refusal(fault: HostFault) -> Result<Refusal, OutOfMemory>
    ensures { IfOk result (λ cause. refusal_of_host fault ≡ Some cause) }
{
    match fault {
        HostFault::NumberUsed => Ok(Refusal::NumberUsed),
        HostFault::NotOperational => Ok(Refusal::NotOperational),
        HostFault::NoDevice => Ok(Refusal::NoDevice),
        HostFault::BadLength => Ok(Refusal::BadLength),
        HostFault::NoIdentifier => Ok(Refusal::NoIdentifier),
        HostFault::NotOpen => Ok(Refusal::NotOpen),
        HostFault::AbortOpen => Ok(Refusal::AbortOpen),
        HostFault::AlreadyStarted => Ok(Refusal::AlreadyStarted),
        HostFault::NotStarted => Ok(Refusal::NotStarted),
        HostFault::AlreadyResetting => Ok(Refusal::AlreadyResetting),
        HostFault::OutOfMemory => Err(OutOfMemory),
    }
}

/// The cause that a fault of the fabric names in a session. None where the line names no disk or phy that there is.
pub(crate) fn plug_refusal(fault: PlugFault) -> Result<Option<Refusal>, OutOfMemory>
    ensures { IfOk result (λ cause. option_map told_cause (refusal_of_fabric fault) ≡ Some cause) }
{
    match fault {
        PlugFault::NoSuchDisk | PlugFault::NoSuchPhy => Ok(None),
        PlugFault::Occupied => Ok(Some(Refusal::Occupied)),
        PlugFault::AlreadyPlugged => Ok(Some(Refusal::AlreadyPlugged)),
        PlugFault::PlugsSpent => Ok(Some(Refusal::PlugsSpent)),
        PlugFault::NotPlugged => Ok(Some(Refusal::NotPlugged)),
        PlugFault::OutOfMemory => Err(OutOfMemory),
    }
}
