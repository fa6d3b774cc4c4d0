//! Calls that are refused: the next entry of their party says so.
ghost use Rattle.std.specs.Prelude.{◌≡◌, find, option_copied};
ghost use Rattle.mpt_trace.specs.declared.entry.Entry.TheVariants as entry;
ghost use Rattle.mpt_wire.specs.Machine.Calls.{call_of, is_call_refused, is_of_call};
ghost use Rattle.mpt_wire.specs.Walks.Ahead.{next_own};

use crate::memory::{is_of_fabric, is_of_host};
use mpt_trace::{Entry, Input, RefusedCall};

// Whether the call that an input makes is refused, given the entries after it. Each entry of a
// party is looked at for one input of that party at most.
pub(crate) fn is_refused(input: &Input, later: &[Entry]) -> bool
    ensures { result ≡ is_call_refused (call_of input.now) (next_own (entry.Given input.now) later.now) }
{
    match next_told(input, later) {
        Some(Entry::Refuse { call, .. }) => names_call(call, input),
        _ => false,
    }
}

// The next entry of the party that is told the input.
fn next_told<'a>(input: &Input, later: &'a [Entry]) -> Option<&'a Entry>
    ensures { option_copied result ≡ next_own (entry.Given input.now) later.now }
{
    match input {
        Input::Plug { .. } | Input::Unplug { .. } => later.iter().find(|entry| is_of_fabric(entry)),
        _ => later.iter().find(|entry| is_of_host(entry)),
    }
}

// Whether a refusal is one of the call that an input makes.
fn names_call(call: &RefusedCall, input: &Input) -> bool
    ensures { result ≡ is_of_call (call_of input.now) call.now }
{
    match (input, call) {
        (Input::Start, RefusedCall::Start)
        | (Input::Reset, RefusedCall::Reset)
        | (Input::UnitReset, RefusedCall::UnitReset) => true,
        (Input::Abort { n }, RefusedCall::Abort(k)) => *k == *n,
        (Input::TargetReset { address }, RefusedCall::TargetReset(b))
        | (Input::Plug { address, .. }, RefusedCall::Plug(b))
        | (Input::Unplug { address }, RefusedCall::Unplug(b)) => *b == *address,
        _ => false,
    }
}
