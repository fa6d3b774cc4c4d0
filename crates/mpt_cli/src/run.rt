//! The whole run, from words to status.
ghost use Rattle.std.specs.Prelude.{◌≡◌, map, string_bytes, IfOk, Some};
ghost use Rattle.mpt_script.specs.Generator.{generated};
ghost use Rattle.mpt_script.specs.Printed.{schedule_text};
ghost use Rattle.mpt_cli.specs.Job.{job_of};
ghost use Rattle.mpt_cli.specs.Run.{Generates, RunsTo, Writes, seen_between};

use crate::answer::answer_to;
use crate::job::{Job, Question};
use crate::status::Status;
use mpt_outside::{Failed, ReadFault, Sink, Source, read_all, write_all};
use mpt_script::{generate, print_schedule};
use mpt_text::{OutOfMemory, Text};
use std::alloc::Global;

/// The most bytes that an input may have.
const MOST_BYTES: usize = 33_554_432;

const USAGE: &[u8] = b"usage: mpt_cli decode <kind> | replay | show | gen <number>\n";

/// Does all that the program does: reads the source as the words ask and writes the answer to the
/// sink.
pub fn run<S: Source, K: Sink>(
    alloc: Global,
    words: &[String],
    source: &mut S,
    sink: &mut K,
) -> Status
    ensures { RunsTo (job_of (map string_bytes words.now))
        (seen_between S.left S.given S.faults K.taken K.faults source.old source.new sink.old sink.new) result }
{
    match Job::from_words(words) {
        None => finish(sink, Status::Usage, USAGE),
        Some(Job::Answer(question)) => run_answer(alloc, question, source, sink),
        Some(Job::Gen(number)) => run_gen(alloc, number, sink),
    }
}

// Reads the whole input and writes the answer to it.
fn run_answer<S: Source, K: Sink>(
    alloc: Global,
    question: Question,
    source: &mut S,
    sink: &mut K,
) -> Status
    ensures { RunsTo (Some (Job.Answer question))
        (seen_between S.left S.given S.faults K.taken K.faults source.old source.new sink.old sink.new) result }
{
    let input = match read_all(alloc, source, MOST_BYTES) {
        Ok(input) => input,
        Err(ReadFault::Failed) => return finish(sink, Status::ReadFault, b"read fault\n"),
        Err(ReadFault::TooLong) => return finish(sink, Status::TooLong, b"too long\n"),
        Err(ReadFault::OutOfMemory) => return Status::OutOfMemory,
    };
    match answer_to(alloc, question, &input) {
        Ok(answer) => finish(sink, answer.status, answer.text.as_bytes()),
        Err(_) => Status::OutOfMemory,
    }
}

// Writes the schedule of the number.
fn run_gen<K: Sink>(alloc: Global, number: u64, sink: &mut K) -> Status
    ensures { Generates (K.taken sink.old) (K.taken sink.new) (K.faults sink.old) (K.faults sink.new) number result }
{
    match generated_text(alloc, number) {
        Ok(text) => finish(sink, Status::Ok, text.as_bytes()),
        Err(_) => Status::OutOfMemory,
    }
}

fn generated_text(alloc: Global, number: u64) -> Result<Text, OutOfMemory>
    ensures { IfOk result (λ text. text ≡ schedule_text 0 (generated number)) }
{
    print_schedule(alloc, &generate(alloc, number)?)
}

// Writes the text. The status is WriteFault where the sink fails, and else the given one.
fn finish<K: Sink>(sink: &mut K, status: Status, text: &[u8]) -> Status
    ensures { Writes (K.taken sink.old) (K.taken sink.new) (K.faults sink.old) (K.faults sink.new) status text.now result }
{
    match write_all(sink, text) {
        Ok(()) => status,
        Err(Failed) => Status::WriteFault,
    }
}
