//! Reports as text.
ghost use Rattle.std.specs.Prelude.{◌≡◌, ◌++◌, [], ◌∷◌, IfOk, OnOk, filter};
ghost use Rattle.mpt_trace.specs.Entries.{entry_line, entry_lines, is_in_show};
ghost use Rattle.mpt_wire.specs.Machine.Reports.{report, short_report};
ghost use Rattle.mpt_replay.specs.Reports.{schedule_report, schedule_short_report};

use crate::replayed::Replayed;
use mpt_script::Schedule;
use mpt_text::{OutOfMemory, Text};
use mpt_trace::{Entry, Summary, entry_text, in_show, summary_text};
use std::alloc::Global;

/// The report of a schedule: the line of each entry of its trace, and then those of the summary; or
/// OutOfMemory.
pub fn schedule_report(alloc: Global, schedule: &Schedule) -> Result<Text, OutOfMemory>
    ensures { IfOk result (λ text. text ≡ schedule_report schedule.now) }
{
    let replayed = Replayed::new(alloc, schedule)?;
    report_text(alloc, replayed.entries(), replayed.summary())
}

/// The short report of a schedule: the same without inputs, idle choices, puts and takes; or
/// OutOfMemory.
pub fn schedule_short_report(alloc: Global, schedule: &Schedule) -> Result<Text, OutOfMemory>
    ensures { IfOk result (λ text. text ≡ schedule_short_report schedule.now) }
{
    let replayed = Replayed::new(alloc, schedule)?;
    short_report_text(alloc, replayed.entries(), replayed.summary())
}

/// The report of a trace with this summary; or OutOfMemory.
pub fn report_text(alloc: Global, entries: &[Entry], summary: &Summary) -> Result<Text, OutOfMemory>
    ensures { IfOk result (λ text. text ≡ report entries.now summary.now) }
{
    let mut text = Text::new(alloc);
    for entry in entries {
        push_line(alloc, &mut text, entry)?;
    }
    text.push(summary_text(alloc, summary)?.as_bytes())?;
    Ok(text)
}

/// The short report of a trace with this summary; or OutOfMemory.
pub fn short_report_text(
    alloc: Global,
    entries: &[Entry],
    summary: &Summary,
) -> Result<Text, OutOfMemory>
    ensures { IfOk result (λ text. text ≡ short_report entries.now summary.now) }
{
    let mut text = Text::new(alloc);
    for entry in entries {
        push_shown(alloc, &mut text, entry)?;
    }
    text.push(summary_text(alloc, summary)?.as_bytes())?;
    Ok(text)
}

// The line of an entry.
fn push_line(alloc: Global, text: &mut Text, entry: &Entry) -> Result<(), OutOfMemory>
    ensures { OnOk result (text.new ≡ text.old ++ entry_line entry.now) }
{
    text.push(entry_text(alloc, entry)?.as_bytes())
}

// The line of an entry, where the short report shows it.
fn push_shown(alloc: Global, text: &mut Text, entry: &Entry) -> Result<(), OutOfMemory>
    ensures { OnOk result (text.new ≡ text.old ++ entry_lines (filter is_in_show (entry.now ∷ []))) }
{
    if in_show(entry) {
        push_line(alloc, text, entry)
    } else {
        Ok(())
    }
}
