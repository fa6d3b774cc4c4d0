//! What an input asks of the host.
ghost use Rattle.std.specs.Prelude.{◌≡◌, ◌++◌, IfOk, IsErr, IsSome, OnErr, OnOk, option_map};
ghost use Rattle.mpt_trace.specs.declared.entry.Entry.TheVariants as entry;
ghost use Rattle.host_core.specs.Asking.{asks};
ghost use Rattle.host_core.specs.Driver.{IsSame};
ghost use Rattle.host_core.specs.Faults.{refusal_in};

use super::Host;
use crate::faults::HostFault;
use mpt_rules::OutOfMemory;
use mpt_trace::{Entry, Input, Refusal, RefusedCall, command_of};

impl Host {
    /// Makes the call that an input names, and answers the entry of its refusal. None exactly where it isn't refused. An
    /// input to the fabric asks nothing of the host. Where memory is wanting nothing changes.
    pub fn ask(&mut self, input: &Input) -> Result<Option<Entry>, OutOfMemory>
        ensures refused { IfOk result (λ refused. refused ≡ (asks self.old.host input.now).answer) }
        ensures host { OnOk result (self.new.host ≡ (asks self.old.host input.now).part) }
        ensures told { OnOk result (self.new.told ≡ self.old.told ++ (asks self.old.host input.now).told) }
        ensures stays { OnErr result (IsSame self.old self.new) }
    {
        match input {
            Input::Start => {
                let cause = cause_of(self.start())?;
                Ok(refuse(RefusedCall::Start, cause))
            }
            Input::Submit { n, address, form } => {
                let command = command_of(self.alloc, form)?;
                let cause = cause_of(self.submit(*n, *address, command))?;
                Ok(refuse_submit(*n, cause))
            }
            Input::Abort { n } => {
                let cause = cause_of(self.abort(*n))?;
                Ok(refuse(RefusedCall::Abort(*n), cause))
            }
            Input::TargetReset { address } => {
                let cause = cause_of(self.target_reset(*address))?;
                Ok(refuse(RefusedCall::TargetReset(*address), cause))
            }
            Input::Reset => {
                let cause = cause_of(self.diag_reset())?;
                Ok(refuse(RefusedCall::Reset, cause))
            }
            Input::UnitReset => {
                let cause = cause_of(self.unit_reset())?;
                Ok(refuse(RefusedCall::UnitReset, cause))
            }
            Input::Plug { .. } | Input::Unplug { .. } => Ok(None),
        }
    }
}

// The cause of a refusal. OutOfMemory is none.
fn cause_of<T: Drop>(answer: Result<T, HostFault>) -> Result<Option<Refusal>, OutOfMemory>
    ensures cause { IfOk result (λ cause. cause ≡ refusal_in answer) }
    ensures refused { IfOk result (λ cause. IsErr answer → IsSome cause) }
    ensures memory { OnErr result (IsErr answer) }
{
    match answer {
        Ok(_) => Ok(None),
        Err(fault) => match fault.refusal() {
            Some(cause) => Ok(Some(cause)),
            None => Err(OutOfMemory),
        },
    }
}

// The entry of a submission that is refused, if it is.
fn refuse_submit(n: u32, cause: Option<Refusal>) -> Option<Entry>
    ensures { result ≡ option_map (entry.RefuseSubmit n) cause }
{
    let cause = cause?;
    Some(Entry::RefuseSubmit { n, cause })
}

// The entry of another call that is refused, if it is.
fn refuse(call: RefusedCall, cause: Option<Refusal>) -> Option<Entry>
    ensures { result ≡ option_map (entry.Refuse call) cause }
{
    let cause = cause?;
    Some(Entry::Refuse { call, cause })
}
