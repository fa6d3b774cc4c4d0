//! Sessions.
ghost use Rattle.std.specs.Prelude.{◌≡◌, ◌<◌, ◌∷◌, IfOk, length};
ghost use Rattle.mpt_wire.specs.Machine.Reports.{last_machine};
ghost use Rattle.mpt_rules.specs.World.Settings.{IsSetting};
ghost use Rattle.mpt_rules.specs.World.Summaries.{summary_with};
ghost use Rattle.law_plans.specs.Limits.{plan_setting};
ghost use Rattle.live_session.specs.Ended.{EndsSession, are_quiet};
ghost use Rattle.live_session.specs.Left.{PlanLeft};

use crate::cores::Cores;
use crate::ended::Ended;
use crate::ending::{Left, run_parties};
use crate::lanes::open_lanes;
use crate::lines::FabricLines;
use crate::quiet::are_quiet;
use crate::sides::Sides;
use crate::submitters::submitter_ends;
use disk_machine::{summaries_agree, summary_of_trace};
use host_core::Host;
use ioc_core::Ioc;
use law_plans::plans_keep_limits;
use live_journals::{entered_inputs_fit, journals_make_sessions};
use mpt_journal::{Journal, OutOfMemory, merge};
use mpt_live::Gate;
use mpt_script::Plan;
use mpt_system::phases_summary;
use mpt_trace::{Summary, Trace};
use sas_fabric::Fabric;
use std::alloc::Global;
use std::sync::Wait;
use std::thread::Threads;

/// Runs the session of a plan: the host, the controller, the fabric and each submitter, each in a thread of its own, on
/// lanes between them, until all have ended. It isn't promised that it returns. Each party calls the gate as its work
/// begins, and before each pump.
///
/// # Errors
/// OutOfMemory where memory was wanting anywhere. The parties have ended then, and nothing is left of the session.
pub fn session<R: Threads + Wait + Sync, G: Gate + Sync>(
    rt: &R,
    alloc: Global,
    plan: &Plan,
    gate: &G,
) -> Result<Ended, OutOfMemory>
    ensures { IfOk result (λ ended. EndsSession plan.now ended) }
{
    // Each plan is within the limits.
    let queues = plan.queues();
    plans_keep_limits();
    let cores = Cores::new(alloc, plan)?;
    let fabric_lines = FabricLines::new(alloc, plan)?;
    let count = plan.submitters().len();
    let (lanes, lane_ends) = open_lanes(alloc, usize::from(queues), count)?;
    let sides = Sides::new(alloc, &lanes, lane_ends, count, fabric_lines)?;
    let ends = submitter_ends(alloc, plan.submitters(), sides.submitters)?;
    let left = run_parties(rt, gate, alloc, cores, &lanes, ends, sides.cores)?;
    ended(alloc, plan, left)
}

// What the session of a plan leaves, of what its parties left.
fn ended(alloc: Global, plan: &Plan, left: Left) -> Result<Ended, OutOfMemory>
    requires setting { IsSetting (plan_setting plan.now) }
    requires submitters { length plan.now.submitters < 9 }
    requires left { PlanLeft plan.now left }
    ensures { IfOk result (λ ended. EndsSession plan.now ended) }
{
    let (host, host_journal) = left.host;
    let (ioc, ioc_journal) = left.ioc;
    let (fabric, fabric_journal) = left.fabric;
    let journals = all_journals(
        alloc,
        host_journal,
        ioc_journal,
        fabric_journal,
        left.submitters,
    )?;
    let trace = merge(alloc, &journals)?;
    // What led the parties there is a session.
    entered_inputs_fit(trace.as_slice());
    journals_make_sessions();
    let summary = summary_of(alloc, plan, &host, &ioc, &fabric, &trace)?;
    Ok(Ended {
        trace,
        summary,
        host,
        ioc,
        fabric,
        journals,
    })
}

// The summary of a trace where the parties of a plan ended like this.
fn summary_of(
    alloc: Global,
    plan: &Plan,
    host: &Host,
    ioc: &Ioc,
    fabric: &Fabric,
    trace: &Trace,
) -> Result<Summary, OutOfMemory>
    requires setting { IsSetting (plan_setting plan.now) }
    requires phases { length host.now.host.phases ≡ 64 }
    ensures { IfOk result (λ summary. summary ≡ summary_with (last_machine plan.now.disks trace.now.entries) host.now.host.phases (are_quiet host.now.host ioc.now.part fabric.now) trace.now.entries) }
{
    let entries = trace.as_slice();
    let parts = phases_summary(host, are_quiet(host, ioc, fabric));
    // What the host says of its handles is what the rules say of their phases.
    summaries_agree();
    summary_of_trace(alloc, plan.disks(), entries, parts)
}

// The journals in the order of the parties' numbers.
fn all_journals(
    alloc: Global,
    host: Journal,
    ioc: Journal,
    fabric: Journal,
    submitters: Vec<Journal>,
) -> Result<Vec<Journal>, OutOfMemory>
    ensures { IfOk result (λ journals. journals.items ≡ host ∷ ioc ∷ fabric ∷ submitters.items) }
{
    let mut journals = Vec::new(alloc);
    journals.push(host)?;
    journals.push(ioc)?;
    journals.push(fabric)?;
    for journal in submitters {
        journals.push(journal)?;
    }
    Ok(journals)
}
