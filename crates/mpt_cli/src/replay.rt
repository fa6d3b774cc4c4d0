//! The report of a schedule, or the line of its refusal.
ghost use Rattle.std.specs.Prelude.{◌≡◌, IfOk};
ghost use Rattle.mpt_script.specs.Schedules.{schedule_of};
ghost use Rattle.mpt_replay.specs.Reports.{schedule_report, schedule_short_report};
ghost use Rattle.mpt_cli.specs.Answer.{IsReportAnswer, schedule_refusal};
ghost use Rattle.mpt_cli.specs.declared.status.Status.TheVariants as status;

use crate::answer::Answer;
use mpt_replay::{schedule_report, schedule_short_report};
use mpt_script::{Cause, ScriptFault, read_schedule};
use mpt_text::{OutOfMemory, Text};
use std::alloc::Global;

/// The answer of `replay`: the report of the schedule, or the line of its refusal.
pub fn answer_to_replay(alloc: Global, input: &[u8]) -> Result<Answer, OutOfMemory>
    ensures { IfOk result (λ a. IsReportAnswer schedule_report (schedule_of input.now) a.status a.text) }
{
    match read_schedule(alloc, input) {
        Ok(schedule) => Ok(Answer::listed(schedule_report(alloc, &schedule)?)),
        Err(ScriptFault::At { line, cause }) => refused_at(alloc, line, cause),
        Err(ScriptFault::OutOfMemory) => Err(OutOfMemory),
    }
}

/// The answer of `show`: the short report of the schedule, or the line of its refusal.
pub fn answer_to_show(alloc: Global, input: &[u8]) -> Result<Answer, OutOfMemory>
    ensures { IfOk result (λ a. IsReportAnswer schedule_short_report (schedule_of input.now) a.status a.text) }
{
    match read_schedule(alloc, input) {
        Ok(schedule) => Ok(Answer::listed(schedule_short_report(alloc, &schedule)?)),
        Err(ScriptFault::At { line, cause }) => refused_at(alloc, line, cause),
        Err(ScriptFault::OutOfMemory) => Err(OutOfMemory),
    }
}

// The refusal of a schedule at its first faulty line, by that line's first cause.
fn refused_at(alloc: Global, line: u32, cause: Cause) -> Result<Answer, OutOfMemory>
    ensures status { IfOk result (λ a. a.status ≡ status.Refused) }
    ensures text { IfOk result (λ a. a.text ≡ schedule_refusal (record { line = line; cause = cause })) }
{
    let mut text = Text::new(alloc);
    text.push(b"refused line ")?;
    text.push_decimal(u64::from(line))?;
    text.push(b" ")?;
    text.push(cause.word())?;
    text.push(b"\n")?;
    Ok(Answer::refused(text))
}
