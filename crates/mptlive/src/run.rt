//! The whole run, from words to status.
ghost use Rattle.std.specs.Prelude.{◌≡◌, map, string_bytes, Some};
ghost use Rattle.mptlive.specs.Kind.{kind_of};
ghost use Rattle.mptlive.specs.Run.{RunsTo, Writes, seen_between};

use crate::answer::answer_to;
use crate::kind::ReportKind;
use crate::limits::has_too_much;
use crate::status::Status;
use live_session::Gate;
use mpt_outside::{Failed, ReadFault, Sink, Source, read_all, write_all};
use std::alloc::Global;
use std::sync::Wait;
use std::thread::Threads;

/// The most bytes that an input may have.
const MOST_BYTES: usize = 33_554_432;

/// Does all that the program does: reads the plan that the source gives, runs its session in threads, and writes the
/// report to the sink.
///
/// That it returns isn't said.
pub fn run_live<R: Threads + Wait + Sync, S: Source, K: Sink, G: Gate + Sync>(
    rt: &R,
    alloc: Global,
    words: &[String],
    source: &mut S,
    sink: &mut K,
    gate: &G,
) -> Status
    ensures { RunsTo (kind_of (map string_bytes words.now))
        (seen_between S.left S.given S.faults K.taken K.faults source.old source.new sink.old sink.new) result }
{
    match ReportKind::from_words(words) {
        None => finish(sink, Status::Usage, b"usage: mptlive [show]\n"),
        Some(kind) => run_plan(rt, alloc, kind, source, sink, gate),
    }
}

// Reads the whole input and writes the answer to it.
fn run_plan<R: Threads + Wait + Sync, S: Source, K: Sink, G: Gate + Sync>(
    rt: &R,
    alloc: Global,
    kind: ReportKind,
    source: &mut S,
    sink: &mut K,
    gate: &G,
) -> Status
    ensures { RunsTo (Some kind)
        (seen_between S.left S.given S.faults K.taken K.faults source.old source.new sink.old sink.new) result }
{
    let input = match read_all(alloc, source, MOST_BYTES) {
        Ok(input) => input,
        Err(ReadFault::Failed) => return finish(sink, Status::ReadFault, b"read fault\n"),
        Err(ReadFault::TooLong) => return finish(sink, Status::TooLong, b"too long\n"),
        Err(ReadFault::OutOfMemory) => return Status::OutOfMemory,
    };
    if has_too_much(&input) {
        return finish(sink, Status::TooLong, b"too long\n");
    }
    match answer_to(rt, alloc, kind, &input, gate) {
        Ok(answer) => finish(sink, answer.status, answer.text.as_bytes()),
        Err(_) => Status::OutOfMemory,
    }
}

// Writes the text. The status is WriteFault where the sink fails, and else the given one.
fn finish<K: Sink>(sink: &mut K, status: Status, text: &[u8]) -> Status
    ensures { Writes (K.taken sink.old) (K.taken sink.new) (K.faults sink.old) (K.faults sink.new) status text.now result }
{
    match write_all(sink, text) {
        Ok(()) => status,
        Err(Failed) => Status::WriteFault,
    }
}
