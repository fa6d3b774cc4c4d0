//! The work of each party: its end is pumped until it has ended, or memory is wanting anywhere.
ghost use Rattle.std.specs.Prelude.{◌≡◌, false, IfOk};
ghost use Rattle.mpt_rules.specs.Session.OpenCases.{fabric_does, host_does, ioc_does};
ghost use Rattle.mpt_live.specs.Ends.{fabric_account, host_account, ioc_account};
ghost use Rattle.mpt_live.specs.Recorded.{LeadsTo, submitter_enters};
ghost use Rattle.mpt_live.specs.Submitters.{submitter_account};
ghost use Rattle.mpt_live.specs.Traffic.{KeepsLanes};

use crate::fabric_end::FabricEnd;
use crate::gate::Gate;
use crate::host_end::HostEnd;
use crate::ioc_end::IocEnd;
use crate::submitter_end::SubmitterEnd;
use crate::workplace::Workplace;
use mpt_journal::OutOfMemory;
use mpt_trace::Party;
use std::sync::Wait;

// The most moves of a pump.
const QUOTA: u32 = 64;

/// Pumps the host's end until it has ended. OutOfMemory where memory was wanting, here or for another party.
pub fn run_host<'a, R: Wait, G: Gate>(
    rt: &R,
    workplace: &Workplace,
    gate: &G,
    mut end: HostEnd<'a>,
) -> Result<HostEnd<'a>, OutOfMemory>
    ensures cases { IfOk result (λ ended. LeadsTo host_does end.entry.recorded ended.recorded) }
    ensures lanes { IfOk result (λ ended. KeepsLanes (host_account end.entry) (host_account ended)) }
{
    gate.enter(Party::Host);
    for _ in rt.forever() {
        let seen = workplace.begin(gate, Party::Host)?;
        let Ok(pumped) = end.pump(rt, QUOTA) else {
            workplace.spend();
            return Err(OutOfMemory);
        };
        workplace.end(rt, seen, pumped);
        if pumped.ended {
            return Ok(end);
        }
    }
    unreachable!()
}

/// Pumps the controller's end until it has ended. OutOfMemory where memory was wanting, here or for another party.
pub fn run_ioc<'a, R: Wait, G: Gate>(
    rt: &R,
    workplace: &Workplace,
    gate: &G,
    mut end: IocEnd<'a>,
) -> Result<IocEnd<'a>, OutOfMemory>
    ensures cases { IfOk result (λ ended. LeadsTo ioc_does end.entry.recorded ended.recorded) }
    ensures lanes { IfOk result (λ ended. KeepsLanes (ioc_account end.entry) (ioc_account ended)) }
{
    gate.enter(Party::Ioc);
    for _ in rt.forever() {
        let seen = workplace.begin(gate, Party::Ioc)?;
        let Ok(pumped) = end.pump(rt, QUOTA) else {
            workplace.spend();
            return Err(OutOfMemory);
        };
        workplace.end(rt, seen, pumped);
        if pumped.ended {
            return Ok(end);
        }
    }
    unreachable!()
}

/// Pumps the fabric's end until it has ended. OutOfMemory where memory was wanting, here or for another party.
pub fn run_fabric<'a, R: Wait, G: Gate>(
    rt: &R,
    workplace: &Workplace,
    gate: &G,
    mut end: FabricEnd<'a>,
) -> Result<FabricEnd<'a>, OutOfMemory>
    ensures cases { IfOk result (λ ended. LeadsTo fabric_does end.entry.recorded ended.recorded) }
    ensures lanes { IfOk result (λ ended. KeepsLanes (fabric_account end.entry) (fabric_account ended)) }
{
    gate.enter(Party::Fabric);
    for _ in rt.forever() {
        let seen = workplace.begin(gate, Party::Fabric)?;
        let Ok(pumped) = end.pump(rt, QUOTA) else {
            workplace.spend();
            return Err(OutOfMemory);
        };
        workplace.end(rt, seen, pumped);
        if pumped.ended {
            return Ok(end);
        }
    }
    unreachable!()
}

/// Pumps a submitter's end until it has ended, or memory was wanting, here or for another party. Where it was wanting here
/// the end says so.
pub fn run_submitter<R: Wait, G: Gate>(
    rt: &R,
    workplace: &Workplace,
    gate: &G,
    end: &mut SubmitterEnd<'_>,
)
    ensures cases { end.new.is_spent ≡ false → LeadsTo (submitter_enters end.old.number) end.old.recorded end.new.recorded }
    ensures lanes { end.new.is_spent ≡ false → KeepsLanes (submitter_account end.old) (submitter_account end.new) }
    ensures number { end.new.number ≡ end.old.number }
{
    let party = Party::Submitter(end.number());
    gate.enter(party);
    for _ in rt.forever() {
        let Ok(seen) = workplace.begin(gate, party) else {
            return;
        };
        let Ok(pumped) = end.pump(rt, QUOTA) else {
            workplace.spend();
            return;
        };
        workplace.end(rt, seen, pumped);
        if pumped.ended {
            return;
        }
    }
}
