//! Whether a trace fits a plan.
ghost use Rattle.std.specs.Prelude.{◌≡◌, ◌↔◌, ◌<◌, IfOk, false, length, true};
ghost use Rattle.std.specs.List.{list_any};
ghost use Rattle.mpt_wire.specs.Fits.Plan.{AsksAreDone, AsksPut, FabricDoes, FitsPlan, HostDoesAsks, NoMoreAsks, is_idle};
ghost use Rattle.mpt_wire.specs.Ties.ToldInPlace.{TellsInPlace};
ghost use Rattle.plan_fits.specs.Told.{is_put_beyond, order_of};

use crate::asks::{all_ask, asks_are_done, host_does_asks};
use crate::fabric::fabric_does;
use crate::tells::all_are_told;
use mpt_script::Plan;
use mpt_text::OutOfMemory;
use mpt_trace::{Entry, LaneName};
use std::alloc::Global;

/// Whether a trace in which what is told stands in its place fits the plan: the submitters ask their lines, the host and the
/// fabric do theirs, and each submitter is told of its own numbers; or OutOfMemory. The plan has eight submitters at most.
pub fn fits_plan(alloc: Global, plan: &Plan, t: &[Entry]) -> Result<bool, OutOfMemory>
    requires submitters { length plan.now.submitters < 9 }
    requires in_place { TellsInPlace t.now }
    ensures { IfOk result (λ fits. (fits ≡ true) ↔ FitsPlan (order_of plan.now) t.now) }
{
    if !submitters_ask(plan, t) {
        return Ok(false);
    }
    if !parties_do(plan, t) {
        return Ok(false);
    }
    if has_idle(t) {
        return Ok(false);
    }
    all_are_told(alloc, t, plan.submitters())
}

// Whether the submitters ask their lines, and nothing more is asked or told.
fn submitters_ask(plan: &Plan, t: &[Entry]) -> bool
    requires { length plan.now.submitters < 9 }
    ensures { (result ≡ true) ↔ (AsksPut 0 plan.now.submitters t.now × NoMoreAsks (length plan.now.submitters) t.now) }
{
    let submitters = plan.submitters();
    if all_ask(t, submitters) {
        !puts_beyond(t, submitters.len())
    } else {
        false
    }
}

// Whether the host does what it is asked, and the fabric its own lines.
fn parties_do(plan: &Plan, t: &[Entry]) -> bool
    ensures { (result ≡ true) ↔ (HostDoesAsks t.now × AsksAreDone t.now × FabricDoes (order_of plan.now) t.now) }
{
    if !host_does_asks(t) {
        return false;
    }
    if !asks_are_done(t) {
        return false;
    }
    let plugs = plan.plugs().as_slice();
    let block = plan.fabric().as_slice();
    fabric_does(t, plugs, block)
}

// Whether a choice found nothing to do.
fn has_idle(t: &[Entry]) -> bool
    ensures { result ≡ list_any is_idle t.now }
{
    t.iter().any(|entry| matches!(entry, Entry::Idle(_)))
}

// Whether something is put on the lane of a submitter beyond this number.
fn puts_beyond(t: &[Entry], submitters: usize) -> bool
    ensures { result ≡ list_any (is_put_beyond submitters) t.now }
{
    t.iter().any(|entry| is_beyond(entry, submitters))
}

// Whether the entry puts an item on such a lane.
fn is_beyond(entry: &Entry, submitters: usize) -> bool
    ensures { result ≡ is_put_beyond submitters entry.now }
{
    match entry {
        Entry::Put { lane, .. } => match lane {
            LaneName::Ask(i) | LaneName::Tell(i) => submitters <= usize::from(*i),
            _ => false,
        },
        _ => false,
    }
}
