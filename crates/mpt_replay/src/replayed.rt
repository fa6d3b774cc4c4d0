//! A schedule that was carried out.
ghost use Rattle.std.specs.Prelude.{◌≡◌, IfOk};
ghost use Rattle.mpt_replay.specs.Reports.{replay_of};

use crate::carrying::carry_out;
use crate::head::Head;
use law_replays::{replays_are_of_cases, schedules_keep_limits};
use mpt_script::Schedule;
use mpt_system::{System, disks_stay};
use mpt_text::OutOfMemory;
use mpt_trace::{Entry, Summary};
use std::alloc::Global;
use std::marker::Model;

/// What happened as a schedule was carried out. A contract sees the entries of its trace and the
/// summary.
#[derive(Drop)]
pub struct Replayed {
    system: System,
    summary: Summary,
}

impl Model for Replayed {
    ghost use Rattle.std.specs.Prelude.{◌≡◌, []};
    ghost use Rattle.mpt_replay.specs.Seen.{ReplaySeen};

    ghost Value = { ReplaySeen };

    ghost view = { λ r. record { entries = r.system.entries; summary = r.summary } };

    ghost invariant = { λ r. r.system.pending ≡ [] };
}

impl Replayed {
    /// Carries out a schedule from the first world of what its head declares; or OutOfMemory.
    pub fn new(alloc: Global, schedule: &Schedule) -> Result<Replayed, OutOfMemory>
        ensures { IfOk result (λ replayed. replayed ≡ replay_of schedule.now) }
    {
        let lines = schedule.lines();
        // Each schedule is within the limits.
        schedules_keep_limits();
        let head = Head::of(alloc, lines)?;
        let mut system = head.system(alloc)?;
        carry_out(alloc, &mut system, lines)?;
        // Its disks are those of the head, whatever was carried out.
        replays_are_of_cases();
        disks_stay();
        let summary = system.summary(alloc)?;
        Ok(Replayed { system, summary })
    }

    /// The entries of the trace, the oldest first.
    pub fn entries(&self) -> &[Entry]
        ensures { result.now ≡ self.now.entries }
    {
        self.system.trace().as_slice()
    }

    /// The summary of the trace.
    pub fn summary(&self) -> &Summary
        ensures { result.now ≡ self.now.summary }
    {
        &self.summary
    }
}
