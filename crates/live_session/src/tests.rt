//! Worked sessions.
use crate::{Gate, OpenGate, OutOfMemory, session};
use mpt_script::{ScriptFault, read_plan};
use mpt_text::Text;
use mpt_trace::{Party, summary_text};
use std::alloc::Global;
use std::process::Abort;
use std::sync::Wait;
use std::sync::atomic::{AtomicBool, Ordering};
use std::test::Fail;
use std::thread::Threads;

// Two submitters write blocks of one disk, read one, and test it.
const TWO_SUBMITTERS: &str = "disk 5000c50000000001 16\nexpander 0 1\nplug 5000c50000000001 0 0\n\
    submitter 0\nsubmit 1 5000c50000000001 write 0 1 11\nsubmit 2 5000c50000000001 read 0 1\n\
    submitter 1\nsubmit 3 5000c50000000001 write 1 1 22\nsubmit 4 5000c50000000001 tur\n";

// The same with two reply queues.
const TWO_QUEUES: &str =
    "queues 2\ndisk 5000c50000000001 16\nexpander 0 1\nplug 5000c50000000001 0 0\n\
    submitter 0\nsubmit 1 5000c50000000001 write 0 1 11\nsubmit 2 5000c50000000001 read 0 1\n\
    submitter 1\nsubmit 3 5000c50000000001 write 1 1 22\nsubmit 4 5000c50000000001 tur\n";

// What each of their sessions ends with, in whatever order the parties went.
const SUMMARY: &str = "disk 5000c50000000001 at 0 0 sum 15610624\n\
    answers done 4 gone 0 terminated 0 reset 0 refused 0 open 0\n\
    phases reading 0 ready 1 waiting 0 resetting 0 removing 0\n\
    state up quiet yes\n";

// So often a party looks whether another has come.
const LOOKS: u32 = 100_000_000;

// The controller and the fabric pass only once both have come.
#[derive(Drop)]
struct BothGate {
    ioc: AtomicBool,
    fabric: AtomicBool,
    missed: AtomicBool,
}

impl BothGate {
    fn new() -> BothGate {
        BothGate {
            ioc: AtomicBool::new(false),
            fabric: AtomicBool::new(false),
            missed: AtomicBool::new(false),
        }
    }

    // A party comes, and looks for the other.
    fn meet(&self, own: &AtomicBool, other: &AtomicBool) {
        own.store(true, Ordering::SeqCst);
        for _ in 0..LOOKS {
            if other.load(Ordering::SeqCst) {
                return;
            }
        }
        self.missed.store(true, Ordering::SeqCst);
    }
}

impl Gate for BothGate {
    fn enter(&self, _party: Party) {}

    fn turn(&self, party: Party) {
        match party {
            Party::Ioc => self.meet(&self.ioc, &self.fabric),
            Party::Fabric => self.meet(&self.fabric, &self.ioc),
            _ => {}
        }
    }
}

// The summary of the session of a plan's text, as text.
fn summary_of<R: Threads + Wait + Abort + Sync, G: Gate + Sync>(
    rt: &R,
    alloc: Global,
    plan: &str,
    gate: &G,
) -> Result<Text, OutOfMemory> {
    match read_plan(alloc, plan.as_bytes()) {
        Ok(plan) => {
            let ended = session(rt, alloc, &plan, gate)?;
            summary_text(alloc, &ended.summary)
        }
        Err(ScriptFault::OutOfMemory) => Err(OutOfMemory),
        Err(ScriptFault::At { line, .. }) => panic!(rt; "line {line} is refused"),
    }
}

#[test]
fn two_submitters(rt: HostRuntime) -> Result<(), Fail> {
    let text = summary_of(&rt, rt.alloc(), TWO_SUBMITTERS, &OpenGate)?;
    assert_eq!(rt; text.as_bytes(), SUMMARY.as_bytes());
    Ok(())
}

#[test]
fn two_queues(rt: HostRuntime) -> Result<(), Fail> {
    let text = summary_of(&rt, rt.alloc(), TWO_QUEUES, &OpenGate)?;
    assert_eq!(rt; text.as_bytes(), SUMMARY.as_bytes());
    Ok(())
}

#[test]
fn gate_two_parties(rt: HostRuntime) -> Result<(), Fail> {
    let gate = BothGate::new();
    let text = summary_of(&rt, rt.alloc(), TWO_QUEUES, &gate)?;
    assert_eq!(rt; text.as_bytes(), SUMMARY.as_bytes());
    assert!(rt; !gate.missed.load(Ordering::SeqCst));
    Ok(())
}
