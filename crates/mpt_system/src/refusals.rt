//! Why a party refuses an input, and the entry of that.
ghost use Rattle.std.specs.Prelude.{◌≡◌, IfOk, IsErr, IsOk, IsSome, MatchOption, OnErr, OnOk, None, option_and_then};
ghost use Rattle.host_core.specs.Faults.{refusal_in};
ghost use Rattle.mpt_rules.specs.World.Inputs.{told_cause};
ghost use Rattle.sas_fabric.specs.Faults.{refusal_of as plug_refusal};
ghost use Rattle.mpt_system.specs.Asking.{refusal_entry};

use host_core::HostFault;
use mpt_rules::OutOfMemory;
use mpt_trace::{Entry, Input, Refusal, RefusedCall};
use sas_fabric::PlugFault;

/// The cause where a call of the host was refused; or OutOfMemory.
pub fn refused<T: Copy>(answer: Result<T, HostFault>) -> Result<Option<Refusal>, OutOfMemory>
    ensures cause { IfOk result (λ cause. cause ≡ refusal_in answer) }
    ensures granted { IfOk result (λ cause. MatchOption cause (IsOk answer) (λ _. IsErr answer)) }
    ensures memory { OnErr result (IsErr answer) }
{
    match answer {
        Ok(_) => Ok(None),
        Err(fault) => match fault.refusal() {
            Some(cause) => Ok(Some(cause)),
            None => Err(OutOfMemory),
        },
    }
}

/// The cause that is told of a fault of a plug or an unplug. None where the input named no disk or phy
/// that exists; or OutOfMemory.
pub fn plug_cause(fault: PlugFault) -> Result<Option<Refusal>, OutOfMemory>
    ensures cause { IfOk result (λ cause. cause ≡ option_and_then told_cause (plug_refusal fault)) }
    ensures refused { OnOk result (IsSome (plug_refusal fault)) }
{
    match fault {
        PlugFault::NoSuchDisk | PlugFault::NoSuchPhy => Ok(None),
        PlugFault::Occupied => Ok(Some(Refusal::Occupied)),
        PlugFault::AlreadyPlugged => Ok(Some(Refusal::AlreadyPlugged)),
        PlugFault::PlugsSpent => Ok(Some(Refusal::PlugsSpent)),
        PlugFault::NotPlugged => Ok(Some(Refusal::NotPlugged)),
        PlugFault::OutOfMemory => Err(OutOfMemory),
    }
}

/// The entry of an input that is refused.
pub fn refusal_of(input: &Input, cause: Refusal) -> Entry
    ensures { result ≡ refusal_entry input.now cause }
{
    let call = match input {
        Input::Submit { n, .. } => return Entry::RefuseSubmit { n: *n, cause },
        Input::Start => RefusedCall::Start,
        Input::Abort { n } => RefusedCall::Abort(*n),
        Input::TargetReset { address } => RefusedCall::TargetReset(*address),
        Input::Reset => RefusedCall::Reset,
        Input::UnitReset => RefusedCall::UnitReset,
        Input::Plug { address, .. } => RefusedCall::Plug(*address),
        Input::Unplug { address } => RefusedCall::Unplug(*address),
    };
    Entry::Refuse { call, cause }
}
