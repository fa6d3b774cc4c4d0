//! Which party an entry is of.
ghost use Rattle.std.specs.Prelude.{◌≡◌};
ghost use Rattle.mpt_trace.specs.Parties.{chosen as chosen_of, party_of, putter as putter_of, refuser as refuser_of, taker as taker_of, told as told_of};

use crate::choice::Choice;
use crate::entry::Entry;
use crate::input::Input;
use crate::lane::LaneName;
use crate::parties::Party;
use crate::refusal::RefusedCall;

/// The party that an entry is of: for a put the one that puts on the lane, for a take the one that
/// takes from it, for an input the one that is told it, for an idle choice the one whose step it is,
/// else the one that tells it.
pub fn party(e: &Entry) -> Party
    ensures { result ≡ party_of e.now }
{
    match e {
        Entry::Given(input) => told(input),
        Entry::Idle(choice) => chosen(*choice),
        Entry::Put { lane, .. } => putter(*lane),
        Entry::Take { lane, .. } => taker(*lane),
        Entry::Bind { .. } | Entry::Unbind { .. } | Entry::UnbindAll => Party::Ioc,
        Entry::Run { .. } => Party::Fabric,
        Entry::Refuse { call, .. } => refuser(*call),
        _ => Party::Host,
    }
}

fn told(input: &Input) -> Party
    ensures { result ≡ told_of input.now }
{
    match input {
        Input::Plug { .. } | Input::Unplug { .. } => Party::Fabric,
        _ => Party::Host,
    }
}

fn chosen(choice: Choice) -> Party
    ensures { result ≡ chosen_of choice }
{
    match choice {
        Choice::HostPut | Choice::HostTake | Choice::HostTakeOn(_) => Party::Host,
        Choice::FabricTake | Choice::FabricSay | Choice::FabricPut | Choice::FabricRun(_) => {
            Party::Fabric
        }
        _ => Party::Ioc,
    }
}

fn putter(lane: LaneName) -> Party
    ensures { result ≡ putter_of lane }
{
    match lane {
        LaneName::Down | LaneName::Tell(_) => Party::Host,
        LaneName::Up | LaneName::UpOn(_) | LaneName::Out => Party::Ioc,
        LaneName::Back => Party::Fabric,
        LaneName::Ask(i) => Party::Submitter(i),
    }
}

fn taker(lane: LaneName) -> Party
    ensures { result ≡ taker_of lane }
{
    match lane {
        LaneName::Up | LaneName::UpOn(_) | LaneName::Ask(_) => Party::Host,
        LaneName::Down | LaneName::Back => Party::Ioc,
        LaneName::Out => Party::Fabric,
        LaneName::Tell(i) => Party::Submitter(i),
    }
}

fn refuser(call: RefusedCall) -> Party
    ensures { result ≡ refuser_of call }
{
    match call {
        RefusedCall::Plug(_) | RefusedCall::Unplug(_) => Party::Fabric,
        _ => Party::Host,
    }
}
