//! The summary that ends a report.
ghost use Rattle.std.specs.Prelude.{◌≡◌, ◌≤◌, All, IfOk, List, length, map};
ghost use Rattle.mpt_trace.specs.declared.disk_spec.DiskSpec.{DiskSpec};
ghost use Rattle.mpt_wire.specs.Machine.Reports.{last_machine};
ghost use Rattle.disk_machine.specs.Machine.{IsDiskSize};
ghost use Rattle.disk_machine.specs.Summary.{ready_among, summary_by, traced_line};

use crate::machine::DiskMachine;
use crate::parts_summary::PartsSummary;
use crate::tally::AnswerCounts;
use crate::walking::walked;
use mpt_trace::{DiskLine, DiskLines, DiskSpec, Entry, OutOfMemory, Summary};
use std::alloc::Global;

/// The summary of a trace of a run with these disks, of which the parts say this at its end: where
/// the machine of disks has each disk plugged and the sum over its bytes, how many answers of each
/// kind and how many refused submissions the trace has, how many numbers are open, how many disks
/// are ready, and the host's state. Or OutOfMemory.
///
/// There are at most 255 disks, of 1 to 1,024 blocks each. The work grows with the trace, with the
/// logarithm of what is open and known by number, identifier, handle and address, and with the
/// disks' bytes.
pub fn summary_of_trace(
    alloc: Global,
    disks: &[DiskSpec],
    entries: &[Entry],
    parts: PartsSummary,
) -> Result<Summary, OutOfMemory>
    requires few { length disks.now ≤ 255 }
    requires sizes { All IsDiskSize disks.now }
    ensures { IfOk result (λ summary. summary ≡ summary_by (last_machine disks.now entries.now) parts entries.now) }
{
    let machine = walked(alloc, disks, entries)?;
    let counts = AnswerCounts::of(entries);
    let lines = disk_lines(alloc, &machine, disks)?;
    Ok(Summary {
        disks: DiskLines::new(lines),
        done: counts.done,
        gone: counts.gone,
        terminated: counts.terminated,
        reset: counts.reset,
        refused: counts.refused,
        unanswered: machine.unanswered() as u64,
        reading: parts.reading,
        ready: ready_count(&machine, disks) as u8,
        waiting: parts.waiting,
        resetting: parts.resetting,
        removing: parts.removing,
        state: machine.mode(),
        quiet: parts.quiet,
    })
}

// The lines of these disks.
fn disk_lines(
    alloc: Global,
    machine: &DiskMachine,
    disks: &[DiskSpec],
) -> Result<Vec<DiskLine>, OutOfMemory>
    ensures { IfOk result (λ lines. lines.items ≡ map (λ (d : DiskSpec). traced_line machine.now d.address) disks.now) }
{
    disks
        .iter()
        .map(|disk| machine.line(disk.address))
        .collect(alloc)
}

// How many of these disks are ready.
fn ready_count(machine: &DiskMachine, disks: &[DiskSpec]) -> usize
    ensures value { result ≡ ready_among machine.now disks.now }
    ensures few { result ≤ length disks.now }
{
    disks
        .iter()
        .filter(|disk| machine.is_ready(disk.address))
        .count()
}
