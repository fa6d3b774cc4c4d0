//! Worked plans, run in threads: what is the same whatever order was taken.

use super::*;
use mpt_outside::{MemorySink, MemorySource};
use std::alloc::{AllocError, Global};
use std::sync::Wait;
use std::test::Fail;
use std::thread::Threads;

/// No call has this number.
const NO_CALL: u32 = 4_000_000_000;

/// Two submitters write and read a disk's blocks side by side.
const TWO_SUBMITTERS: &str = "disk 5000c50000000001 16
expander 0 1
plug 5000c50000000001 0 0
submitter 0
submit 1 5000c50000000001 write 0 1 11
submit 2 5000c50000000001 read 0 1
submitter 1
submit 3 5000c50000000001 write 1 1 22
submit 4 5000c50000000001 tur
";

/// The summary of each of its sessions.
const SUMMARY: &str = "
disk 5000c50000000001 at 0 0 sum 15610624
answers done 4 gone 0 terminated 0 reset 0 refused 0 open 0
phases reading 0 ready 1 waiting 0 resetting 0 removing 0
state up quiet yes
";

/// The short report of a plan that says nothing.
const NOTHING: &str = "up
answers done 0 gone 0 terminated 0 reset 0 refused 0 open 0
phases reading 0 ready 0 waiting 0 resetting 0 removing 0
state up quiet yes
";

// How a run with these words ends, and what it writes, where the source and the sink fail at these calls.
fn outcome<R: Threads + Wait + Sync>(
    rt: &R,
    alloc: Global,
    words: &[String],
    plan: &str,
    failing: (u32, u32),
) -> Result<(Status, String), Fail> {
    let mut reads = Vec::new(alloc);
    reads.push(failing.0)?;
    let mut writes = Vec::new(alloc);
    writes.push(failing.1)?;
    let mut source = MemorySource::new(plan.as_bytes().to_vec(alloc)?, 4096, reads);
    let mut sink = MemorySink::new(alloc, 4096, 1_048_576, writes).map_err(|_| "no memory")?;
    let status = run_live(rt, alloc, words, &mut source, &mut sink, &OpenGate);
    let written = std::str::from_utf8(sink.bytes()).map_err(|_| "not text")?;
    Ok((status, String::from_str(alloc, written)?))
}

fn words(alloc: Global, word: &str) -> Result<Vec<String>, AllocError> {
    let mut words = Vec::new(alloc);
    words.push(String::from_str(alloc, word)?)?;
    Ok(words)
}

// A first line, and then the plan of two submitters.
fn two_submitters(alloc: Global, first: &str) -> Result<String, AllocError> {
    let mut plan = String::from_str(alloc, first)?;
    plan.push_str(TWO_SUBMITTERS)?;
    Ok(plan)
}

#[test]
fn summaries_are_the_same_in_every_order(rt: HostRuntime) -> Result<(), Fail> {
    let alloc = rt.alloc();
    let show = words(alloc, "show")?;
    for first in ["", "queues 2\n", "queues 8\n"] {
        let plan = two_submitters(alloc, first)?;
        let (ended, written) = outcome(&rt, alloc, &show, plan.as_str(), (NO_CALL, NO_CALL))?;
        assert_eq!(rt; ended, Status::Ok, "{first}");
        assert!(rt; written.as_str().ends_with(SUMMARY), "{first}: {written}");
    }
    Ok(())
}

// What stands behind this front in each line that begins with it.
fn behind(alloc: Global, text: &str, front: &str) -> Result<String, AllocError> {
    let mut found = String::new(alloc);
    for line in text.lines() {
        if let Some(rest) = line.strip_prefix(front) {
            found.push_str(rest)?;
            found.push_str("\n")?;
        }
    }
    Ok(found)
}

#[test]
fn what_was_put_was_taken_in_order(rt: HostRuntime) -> Result<(), Fail> {
    let alloc = rt.alloc();
    let plan = two_submitters(alloc, "queues 2\n")?;
    let none = Vec::new(alloc);
    let (ended, written) = outcome(&rt, alloc, &none, plan.as_str(), (NO_CALL, NO_CALL))?;
    assert_eq!(rt; ended, Status::Ok);
    assert!(rt; written.as_str().ends_with(SUMMARY), "{written}");
    for lane in [
        "down", "up", "up1", "out", "back", "ask 0", "ask 1", "tell 0", "tell 1",
    ] {
        let put = behind(
            alloc,
            written.as_str(),
            format!(in alloc; "put {lane} ")?.as_str(),
        )?;
        let taken = behind(
            alloc,
            written.as_str(),
            format!(in alloc; "take {lane} ")?.as_str(),
        )?;
        assert_eq!(rt; put.as_str(), taken.as_str(), "{lane}");
    }
    Ok(())
}

#[test]
fn refuses_and_fails(rt: HostRuntime) -> Result<(), Fail> {
    let alloc = rt.alloc();
    for (word, plan, failing, status, text) in [
        ("show", "", (NO_CALL, NO_CALL), Status::Ok, NOTHING),
        (
            "show",
            "queues 9\n",
            (NO_CALL, NO_CALL),
            Status::Refused,
            "refused line 1 range\n",
        ),
        (
            "show",
            "submitter 0",
            (NO_CALL, NO_CALL),
            Status::Refused,
            "refused line 1 unended\n",
        ),
        (
            "shows",
            "",
            (NO_CALL, NO_CALL),
            Status::Usage,
            "usage: mptlive [show]\n",
        ),
        ("show", "", (0, NO_CALL), Status::ReadFault, "read fault\n"),
        ("show", "", (NO_CALL, 0), Status::WriteFault, ""),
    ] {
        let given = words(alloc, word)?;
        let (ended, written) = outcome(&rt, alloc, &given, plan, failing)?;
        assert_eq!(rt; ended, status, "{word} {plan}");
        assert_eq!(rt; written.as_str(), text, "{word} {plan}");
    }
    Ok(())
}

fn many_lines(alloc: Global, line: &str, count: u32) -> Result<String, AllocError> {
    let mut text = String::new(alloc);
    for _ in 0..count {
        text.push_str(line)?;
    }
    Ok(text)
}

#[test]
fn keeps_the_limits(rt: HostRuntime) -> Result<(), Fail> {
    let alloc = rt.alloc();
    let show = words(alloc, "show")?;
    for (line, count, status) in [
        ("reset 1\n", 4_096, Status::Refused),
        ("reset 1\n", 4_097, Status::TooLong),
        ("resets\n", 20_000, Status::Refused),
        ("resets\n", 20_001, Status::TooLong),
    ] {
        let plan = many_lines(alloc, line, count)?;
        let (ended, _) = outcome(&rt, alloc, &show, plan.as_str(), (NO_CALL, NO_CALL))?;
        assert_eq!(rt; ended, status, "{count} of {line}");
    }
    Ok(())
}
