//! What is printed of an input that was read whole and is within the limits.
ghost use Rattle.std.specs.Prelude.{◌≡◌, IfOk};
ghost use Rattle.mpt_script.specs.Plans.{plan_of};
ghost use Rattle.mptlive.specs.Answer.{IsPlanAnswer, IsSessionReport, refusal_line, report_by};
ghost use Rattle.mptlive.specs.declared.status.Status.TheVariants as status;

use crate::kind::ReportKind;
use crate::status::Status;
use live_session::{Gate, session};
use mpt_replay::{report_text, short_report_text};
use mpt_script::{Cause, Plan, ScriptFault, read_plan};
use mpt_text::{OutOfMemory, Text};
use mpt_trace::{Entry, Summary};
use std::alloc::Global;
use std::sync::Wait;
use std::thread::Threads;

/// A status and the text that goes with it.
#[derive(Drop)]
pub struct LiveAnswer {
    /// How the run ends once the text is written.
    pub status: Status,
    /// The text.
    pub text: Text,
}

/// The answer to an input that is within the limits: the report of a session of the plan that it is, or the line of its
/// refusal. Or OutOfMemory.
pub fn answer_to<R: Threads + Wait + Sync, G: Gate + Sync>(
    rt: &R,
    alloc: Global,
    kind: ReportKind,
    input: &[u8],
    gate: &G,
) -> Result<LiveAnswer, OutOfMemory>
    ensures { IfOk result (λ a. IsPlanAnswer kind (plan_of input.now) a.status a.text) }
{
    match read_plan(alloc, input) {
        Ok(plan) => Ok(LiveAnswer {
            status: Status::Ok,
            text: session_text(rt, alloc, kind, &plan, gate)?,
        }),
        Err(ScriptFault::At { line, cause }) => Ok(LiveAnswer {
            status: Status::Refused,
            text: refusal_text(alloc, line, cause)?,
        }),
        Err(ScriptFault::OutOfMemory) => Err(OutOfMemory),
    }
}

// The report of a session of the plan.
fn session_text<R: Threads + Wait + Sync, G: Gate + Sync>(
    rt: &R,
    alloc: Global,
    kind: ReportKind,
    plan: &Plan,
    gate: &G,
) -> Result<Text, OutOfMemory>
    ensures { IfOk result (IsSessionReport kind plan.now) }
{
    let ended = session(rt, alloc, plan, gate)?;
    report_by(alloc, kind, ended.trace.as_slice(), &ended.summary)
}

// The report of this kind of a trace with its summary.
fn report_by(
    alloc: Global,
    kind: ReportKind,
    entries: &[Entry],
    summary: &Summary,
) -> Result<Text, OutOfMemory>
    ensures { IfOk result (λ text. text ≡ report_by kind entries.now summary.now) }
{
    match kind {
        ReportKind::Whole => report_text(alloc, entries, summary),
        ReportKind::Short => short_report_text(alloc, entries, summary),
    }
}

// The line of a plan's refusal: its first faulty line and that line's first cause.
fn refusal_text(alloc: Global, line: u32, cause: Cause) -> Result<Text, OutOfMemory>
    ensures { IfOk result (λ text. text ≡ refusal_line (record { line = line; cause = cause })) }
{
    let mut text = Text::new(alloc);
    text.push(b"refused line ")?;
    text.push_decimal(u64::from(line))?;
    text.push(b" ")?;
    text.push(cause.word())?;
    text.push(b"\n")?;
    Ok(text)
}
