//! Worked schedules, carried out and shown, and the same with sources and sinks that fail.

use super::*;
use crate::tests::{NO_CALL, outcome};
use std::alloc::{AllocError, Global};
use std::test::Fail;

/// A disk is plugged, and the host brings the controller up.
const PRELUDE: &str = "disk A 16; expander 0 4; plug A 0 0; start; drain";

/// What a short report shows of that.
const SHOWN: &str = "bind 0009 A 1; up; ready A 0009";

/// The last lines of a short report where one disk is ready and all is quiet.
const READY: &str = "phases reading 0 ready 1 waiting 0 resetting 0 removing 0; state up quiet yes";

/// The end of a report in which nothing was answered and no handle is anything.
const NOTHING: &str =
    "answers done 0 gone 0 terminated 0 reset 0 refused 0 open 0; phases reading 0 ready 0 waiting 0 resetting 0 removing 0";

// A text from one in short: its lines are parted by `; `, A and B are the addresses of two disks, and
// PRELUDE, SHOWN, READY and NOTHING stand for their lines.
fn written_out(alloc: Global, short: &str) -> Result<String, AllocError> {
    let mut text = String::new(alloc);
    for line in short.split("; ") {
        match line {
            "PRELUDE" => push_lines(&mut text, PRELUDE)?,
            "SHOWN" => push_lines(&mut text, SHOWN)?,
            "READY" => push_lines(&mut text, READY)?,
            "NOTHING" => push_lines(&mut text, NOTHING)?,
            _ => push_line(&mut text, line)?,
        }
    }
    Ok(text)
}

fn push_lines(text: &mut String, lines: &str) -> Result<(), AllocError> {
    for line in lines.split("; ") {
        push_line(text, line)?;
    }
    Ok(())
}

// A line, unless it is empty.
fn push_line(text: &mut String, line: &str) -> Result<(), AllocError> {
    if line.is_empty() {
        return Ok(());
    }
    let mut is_first = true;
    for word in line.split(' ') {
        if !is_first {
            text.push_str(" ")?;
        }
        text.push_str(match word {
            "A" => "5000c50000000001",
            "B" => "5000c50000000002",
            _ => word,
        })?;
        is_first = false;
    }
    text.push_str("\n")
}

// How a run with this word ends on a schedule in short, and what it writes.
fn replayed(alloc: Global, word: &str, short: &str) -> Result<(Status, Vec<u8>), Fail> {
    let schedule = written_out(alloc, short)?;
    outcome(alloc, word, schedule.as_bytes(), 4096, (NO_CALL, NO_CALL))
}

/// What each shows, its schedule and its short report, both in short.
const WORKED: [(&str, &str, &str); 12] = [
    (
        "the disk that gets a handle again runs nothing of the one before",
        "disk A 16; disk B 16; expander 0 4; plug A 0 0; start; drain; submit 1 A write 0 1 11; submit 2 A write 1 1 22; submit 3 A write 2 1 33; host-put 3; ioc-take 3; unplug A; fabric-say; fabric-put; ioc-back; ioc-put; host-take; host-put 4; ioc-take 4; ioc-high; ioc-put; host-take; host-put 3; ioc-take 3; ioc-normal 5; plug B 0 0; drain; submit 4 B read 0 1; drain",
        "SHOWN; accept 1 A 1; accept 2 A 2; accept 3 A 3; lost A 0009; unbind 0009; bind 0009 B 1; answer 1 gone; answer 2 gone; answer 3 gone; ready B 0009; accept 4 B 1; run B 1; answer 4 done 00 512*00 -; disk A out sum 0; disk B at 0 0 sum 0; answers done 1 gone 3 terminated 0 reset 0 refused 0 open 0; READY",
    ),
    (
        "the target reset of an old handle leaves the command under the new one alone",
        "PRELUDE; unplug A; plug A 0 0; fabric-say 2; fabric-put 2; ioc-back 2; ioc-put 2; host-take 2; host-put 8; ioc-take 8; ioc-normal 3; ioc-put 3; host-take 3; submit 1 A tur; host-put 7; ioc-take 7; ioc-normal; ioc-out; fabric-take; ioc-high; ioc-out; fabric-take; fabric-run 1; treset A; drain",
        "SHOWN; bind 000a A 2; lost A 0009; ready A 000a; accept 1 A 1; run A 1; answer 1 done 00 - -; treset A done 0; unbind 0009; disk A at 0 0 sum 0; answers done 1 gone 0 terminated 0 reset 0 refused 0 open 0; READY",
    ),
    (
        "and so it is without a target reset of the user's",
        "PRELUDE; unplug A; plug A 0 0; fabric-say 2; fabric-put 2; ioc-back 2; ioc-put 2; host-take 2; host-put 8; ioc-take 8; ioc-normal 3; ioc-put 3; host-take 3; submit 1 A tur; host-put 7; ioc-take 7; ioc-normal; ioc-out; fabric-take; ioc-high; ioc-out; fabric-take; fabric-run 1; drain",
        "SHOWN; bind 000a A 2; lost A 0009; ready A 000a; accept 1 A 1; run A 1; answer 1 done 00 - -; unbind 0009; disk A at 0 0 sum 0; answers done 1 gone 0 terminated 0 reset 0 refused 0 open 0; READY",
    ),
    (
        "an identifier is parked while an abort of its command is open",
        "PRELUDE; submit 1 A write 0 1 11; host-put; ioc-take; abort 1; host-put; ioc-take; ioc-high; drain; abort 1; submit 2 A tur; host-put; ioc-take; ioc-normal; ioc-out; fabric-take; fabric-run 1; fabric-put; ioc-back; ioc-put; abort 2; host-take; submit 3 A tur; drain; submit 4 A tur; drain",
        "SHOWN; accept 1 A 1; answer 1 terminated; abort 1 stopped; refuse abort 1 not-open; accept 2 A 1; run A 1; answer 2 done 00 - -; accept 3 A 2; abort 2 not-found; run A 2; answer 3 done 00 - -; accept 4 A 1; run A 1; answer 4 done 00 - -; disk A at 0 0 sum 0; answers done 3 gone 0 terminated 1 reset 0 refused 0 open 0; READY",
    ),
    (
        "a reset answers what is open, and one command had run",
        "PRELUDE; submit 1 A write 0 1 11; submit 2 A write 1 1 22; host-put 2; ioc-take 2; ioc-normal 2; ioc-out 2; fabric-take 2; fabric-run 1; reset; host-put 8; ioc-take 8; ioc-put; host-take; host-put; ioc-take; drain",
        "SHOWN; accept 1 A 1; accept 2 A 2; run A 1; unbind all; answer 1 reset; answer 2 reset; reset done; bind 0009 A 1; up; ready A 0009; disk A at 0 0 sum 2232576; answers done 0 gone 0 terminated 0 reset 2 refused 0 open 0; READY",
    ),
    (
        "the last block, a block past it, no block and too many",
        "PRELUDE; submit 1 A read 15 1; submit 2 A read 16 1; submit 3 A read 0 0; submit 4 A read 0 9; drain",
        "SHOWN; accept 1 A 1; accept 2 A 2; accept 3 A 3; refuse submit 4 bad-length; run A 1; answer 1 done 00 512*00 -; run A 2; answer 2 done 02 - 700005000000000a00000000210000000000; run A 3; answer 3 done 00 - -; disk A at 0 0 sum 0; answers done 3 gone 0 terminated 0 reset 0 refused 1 open 0; READY",
    ),
    (
        "a write is read back",
        "PRELUDE; submit 1 A write 2 1 0a; submit 2 A read 2 1; submit 3 A read 0 9; drain",
        "SHOWN; accept 1 A 1; accept 2 A 2; refuse submit 3 bad-length; run A 1; answer 1 done 00 - -; run A 2; answer 2 done 00 512*0a -; disk A at 0 0 sum 6556160; answers done 2 gone 0 terminated 0 reset 0 refused 1 open 0; READY",
    ),
    (
        "plugs are refused at a phy that is taken and of a disk that is plugged",
        "disk A 16; disk B 16; expander 0 4; start; drain; plug A 0 2; plug B 0 2; plug A 0 1; drain; submit 1 A tur; drain",
        "up; refuse plug B occupied; refuse plug A already-plugged; bind 0009 A 1; ready A 0009; accept 1 A 1; run A 1; answer 1 done 00 - -; disk A at 0 2 sum 0; disk B out sum 0; answers done 1 gone 0 terminated 0 reset 0 refused 0 open 0; READY",
    ),
    (
        "a message unit reset, after which the disk is found again",
        "PRELUDE; unit; drain; submit 1 A tur; drain",
        "SHOWN; unbind all; reset done; bind 0009 A 1; up; ready A 0009; accept 1 A 1; run A 1; answer 1 done 00 - -; disk A at 0 0 sum 0; answers done 1 gone 0 terminated 0 reset 0 refused 0 open 0; READY",
    ),
    (
        "a host that wasn't started resets nothing",
        "reset",
        "refuse reset not-started; NOTHING; state off quiet yes",
    ),
    (
        "on two queues an abort's reply overtakes its command's",
        "queues 2; PRELUDE; submit 1 A tur; submit 2 A write 0 1 11; host-put 2; ioc-take 2; abort 2; host-put; ioc-take; ioc-high; ioc-put; host-take; submit 3 A tur; ioc-put-on 1; host-take-on 1; submit 4 A tur; drain",
        "SHOWN; accept 1 A 1; accept 2 A 2; abort 2 stopped; accept 3 A 3; answer 2 terminated; accept 4 A 2; run A 1; answer 1 done 00 - -; run A 3; answer 3 done 00 - -; run A 2; answer 4 done 00 - -; disk A at 0 0 sum 0; answers done 3 gone 0 terminated 1 reset 0 refused 0 open 0; READY",
    ),
    (
        "on two queues a reset awaits the mark behind a reply",
        "queues 2; PRELUDE; submit 1 A tur; submit 2 A write 0 1 11; host-put 2; ioc-take 2; ioc-normal 2; ioc-out 2; fabric-take 2; fabric-run 2; fabric-put; ioc-back; ioc-put-on 1; reset; host-put 8; ioc-take 8; ioc-put; host-take; host-put; ioc-take; drain",
        "SHOWN; accept 1 A 1; accept 2 A 2; run A 2; unbind all; answer 2 done 00 - -; answer 1 reset; reset done; bind 0009 A 1; up; ready A 0009; disk A at 0 0 sum 2232576; answers done 1 gone 0 terminated 0 reset 1 refused 0 open 0; READY",
    ),
];

#[test]
fn shows_what_happened(rt: HostRuntime) -> Result<(), Fail> {
    let alloc = rt.alloc();
    for (shown, schedule, report) in WORKED {
        let (ended, written) = replayed(alloc, "show", schedule)?;
        let wanted = written_out(alloc, report)?;
        assert_eq!(rt; ended, Status::Ok, "{shown}");
        assert_eq!(rt; written.as_slice(), wanted.as_bytes(), "{shown}");
    }
    Ok(())
}

#[test]
fn replays_each_entry(rt: HostRuntime) -> Result<(), Fail> {
    let alloc = rt.alloc();
    for (word, schedule, report) in [
        ("replay", "", "NOTHING; state off quiet yes"),
        ("show", "", "NOTHING; state off quiet yes"),
        (
            "replay",
            "start; host-put; ioc-take; ioc-put; host-take; host-take",
            "in start; put down read 0000; take down read 0000; put up value 10000000; take up value 10000000; idle host-take; NOTHING; state starting quiet no",
        ),
    ] {
        let (ended, written) = replayed(alloc, word, schedule)?;
        let wanted = written_out(alloc, report)?;
        assert_eq!(rt; ended, Status::Ok, "{word} {schedule}");
        assert_eq!(rt; written.as_slice(), wanted.as_bytes(), "{word} {schedule}");
    }
    Ok(())
}

#[test]
fn refuses_what_is_no_schedule(rt: HostRuntime) -> Result<(), Fail> {
    let alloc = rt.alloc();
    let many = many_lines(alloc, "drain\n", 20_001)?;
    for (input, status, line) in [
        ("start", Status::Refused, "refused line 1 unended\n"),
        (
            "disk 5000c50000000001 16\nplug 5000c50000000002 0 0\n",
            Status::Refused,
            "refused line 2 name\n",
        ),
        (
            "disk 5000c50000000001 16\nstart\r\ndrain\n",
            Status::Refused,
            "refused line 2 form\n",
        ),
        (many.as_str(), Status::TooLong, "too long\n"),
    ] {
        let (ended, written) = outcome(alloc, "show", input.as_bytes(), 4096, (NO_CALL, NO_CALL))?;
        assert_eq!(rt; ended, status, "{line}");
        assert_eq!(rt; written.as_slice(), line.as_bytes(), "{line}");
    }
    Ok(())
}

fn many_lines(alloc: Global, line: &str, count: u32) -> Result<String, AllocError> {
    let mut text = String::new(alloc);
    for _ in 0..count {
        text.push_str(line)?;
    }
    Ok(text)
}

// The front of a text, up to a place.
fn front(text: &[u8], end: usize) -> Result<&[u8], Fail> {
    Ok(text.get(..end).ok_or("no front")?)
}

#[test]
fn ends_at_faults_of_schedules(rt: HostRuntime) -> Result<(), Fail> {
    let alloc = rt.alloc();
    let schedule = written_out(alloc, WORKED[0].1)?;
    for call in 0..10 {
        let (ended, written) = outcome(alloc, "show", schedule.as_bytes(), 7, (call, NO_CALL))?;
        assert_eq!(rt; ended, Status::ReadFault, "call {call}");
        assert_eq!(rt;
            written.as_slice(),
            b"read fault\n".as_slice(),
            "call {call}"
        );
    }
    let report = written_out(alloc, "NOTHING; state off quiet yes")?;
    for call in 0..6 {
        let failing = (NO_CALL, u32::try_from(call).map_err(|_| "too many")?);
        let (ended, written) = outcome(alloc, "show", b"", 5, failing)?;
        assert_eq!(rt; ended, Status::WriteFault, "call {call}");
        assert_eq!(rt;
            written.as_slice(),
            front(report.as_bytes(), 5 * call)?,
            "call {call}"
        );
    }
    Ok(())
}

#[test]
fn cut_schedules_are_unended(rt: HostRuntime) -> Result<(), Fail> {
    let alloc = rt.alloc();
    let schedule = written_out(alloc, WORKED[0].1)?;
    let text = schedule.as_bytes();
    let mut line: u32 = 1;
    for end in 0..text.len() {
        let cut = front(text, end)?;
        let (ended, written) = outcome(alloc, "show", cut, 4096, (NO_CALL, NO_CALL))?;
        if cut.last().map_or(true, |byte| *byte == b'\n') {
            assert_eq!(rt; ended, Status::Ok, "{end} bytes");
        } else {
            let refusal = format!(in alloc; "refused line {line} unended\n")?;
            assert_eq!(rt; ended, Status::Refused, "{end} bytes");
            assert_eq!(rt; written.as_slice(), refusal.as_bytes(), "{end} bytes");
        }
        if text[end] == b'\n' {
            line = line.saturating_add(1);
        }
    }
    Ok(())
}

// The report has this text in it.
fn has_text(report: &[u8], text: &str) -> Result<bool, Fail> {
    let report = std::str::from_utf8(report).map_err(|_| "not text")?;
    Ok(report.contains(text))
}

#[test]
fn shows_parts_of_reports(rt: HostRuntime) -> Result<(), Fail> {
    let alloc = rt.alloc();
    let commands =
        "PRELUDE; submit 1 A inquiry 64; submit 2 A capacity; submit 3 B tur; drain; submit 1 A tur";
    let (ended, written) = replayed(alloc, "show", commands)?;
    assert_eq!(rt; ended, Status::Ok);
    for line in [
        "\nanswer 1 done 00 000006021f0000024d505453494d202053494d554c41544544204449534b202030303031 -\n",
        "\nanswer 2 done 00 0000000f00000200 -\n",
        "\nrefuse submit 3 no-device\n",
        "\nrefuse submit 1 number-used\n",
    ] {
        assert!(rt; has_text(&written, line)?, "{line}");
    }
    Ok(())
}

// Blocks written to four disks in turn, and read back.
fn four_disks(alloc: Global) -> Result<String, AllocError> {
    let mut text = String::new(alloc);
    for k in 1..5u32 {
        text.push_str(format!(in alloc; "disk 5000c5000000000{k} 64\n")?.as_str())?;
    }
    text.push_str("expander 0 4\n")?;
    for k in 1..5u32 {
        let phy = k - 1;
        text.push_str(format!(in alloc; "plug 5000c5000000000{k} 0 {phy}\n")?.as_str())?;
    }
    text.push_str("start\ndrain\n")?;
    for i in 0..20u32 {
        let (n, k) = (i + 1, i % 4 + 1);
        let line = format!(in alloc; "submit {n} 5000c5000000000{k} write {i} 1 {n:02x}\n")?;
        text.push_str(line.as_str())?;
    }
    text.push_str("drain\n")?;
    for i in 0..20u32 {
        let (n, k) = (i + 21, i % 4 + 1);
        let line = format!(in alloc; "submit {n} 5000c5000000000{k} read {i} 1\n")?;
        text.push_str(line.as_str())?;
    }
    text.push_str("drain\n")?;
    Ok(text)
}

#[test]
fn four_disks_keep_their_blocks(rt: HostRuntime) -> Result<(), Fail> {
    let alloc = rt.alloc();
    let schedule = four_disks(alloc)?;
    let (ended, written) = outcome(alloc, "show", schedule.as_bytes(), 4096, (NO_CALL, NO_CALL))?;
    assert_eq!(rt; ended, Status::Ok);
    for i in 0..20u32 {
        let (n, byte) = (i + 21, i + 1);
        let line = format!(in alloc; "\nanswer {n} done 00 512*{byte:02x} -\n")?;
        assert!(rt; has_text(&written, line.as_str())?, "{n}");
    }
    let end =
        "\ndisk 5000c50000000001 at 0 0 sum 142224640\ndisk 5000c50000000002 at 0 1 sum 166474240\ndisk 5000c50000000003 at 0 2 sum 193345280\ndisk 5000c50000000004 at 0 3 sum 222837760\nanswers done 40 gone 0 terminated 0 reset 0 refused 0 open 0\nphases reading 0 ready 4 waiting 0 resetting 0 removing 0\nstate up quiet yes\n";
    assert!(rt; has_text(&written, end)?);
    Ok(())
}

#[test]
fn identifiers_run_out(rt: HostRuntime) -> Result<(), Fail> {
    let alloc = rt.alloc();
    let mut schedule = written_out(alloc, "PRELUDE")?;
    let mut report = written_out(alloc, "SHOWN")?;
    for n in 1..257u32 {
        let line = format!(in alloc; "submit {n} A tur; ")?;
        push_lines(&mut schedule, line.as_str())?;
        let line = format!(in alloc; "accept {n} A {n}; ")?;
        push_lines(&mut report, line.as_str())?;
    }
    push_lines(
        &mut schedule,
        "submit 257 A tur; host-put; ioc-take; ioc-normal; ioc-out; fabric-take; fabric-run 1; fabric-put; ioc-back; ioc-put; host-take; submit 257 A tur",
    )?;
    push_lines(
        &mut report,
        "refuse submit 257 no-identifier; run A 1; answer 1 done 00 - -; accept 257 A 1; disk A at 0 0 sum 0; answers done 1 gone 0 terminated 0 reset 0 refused 1 open 256; phases reading 0 ready 1 waiting 0 resetting 0 removing 0; state up quiet no",
    )?;
    let (ended, written) = outcome(alloc, "show", schedule.as_bytes(), 4096, (NO_CALL, NO_CALL))?;
    assert_eq!(rt; ended, Status::Ok);
    assert_eq!(rt; written.as_slice(), report.as_bytes());
    Ok(())
}

// Ten disks that leave at once.
fn ten_disks(alloc: Global) -> Result<String, AllocError> {
    let mut text = String::new(alloc);
    for k in 1..11u32 {
        text.push_str(format!(in alloc; "disk 5000c500000000{k:02x} 16\n")?.as_str())?;
    }
    text.push_str("expander 0 10\n")?;
    for k in 1..11u32 {
        let phy = k - 1;
        text.push_str(format!(in alloc; "plug 5000c500000000{k:02x} 0 {phy}\n")?.as_str())?;
    }
    text.push_str("start\ndrain\n")?;
    for k in 1..11u32 {
        text.push_str(format!(in alloc; "unplug 5000c500000000{k:02x}\n")?.as_str())?;
    }
    text.push_str("fabric-say 10\nfabric-put 10\nioc-back 10\nioc-put 10\nhost-take 10\n")?;
    Ok(text)
}

#[test]
fn removals_wait_for_identifiers(rt: HostRuntime) -> Result<(), Fail> {
    let alloc = rt.alloc();
    let schedule = ten_disks(alloc)?;
    let (ended, written) = outcome(alloc, "show", schedule.as_bytes(), 4096, (NO_CALL, NO_CALL))?;
    assert_eq!(rt; ended, Status::Ok);
    let mut lost = String::new(alloc);
    for k in 1..11u32 {
        let handle = k + 8;
        let line = format!(in alloc; "lost 5000c500000000{k:02x} {handle:04x}\n")?;
        lost.push_str(line.as_str())?;
    }
    lost.push_str("disk 5000c50000000001 out sum 0\n")?;
    assert!(rt; has_text(&written, lost.as_str())?);
    let end = "\nphases reading 0 ready 0 waiting 2 resetting 8 removing 0\nstate up quiet no\n";
    assert!(rt; has_text(&written, end)?);
    Ok(())
}

#[test]
fn generated_schedules_end_quiet(rt: HostRuntime) -> Result<(), Fail> {
    let alloc = rt.alloc();
    let (ended, schedule) = outcome(alloc, "gen 7", b"", 4096, (NO_CALL, NO_CALL))?;
    assert_eq!(rt; ended, Status::Ok);
    let (ended, first) = outcome(alloc, "show", &schedule, 4096, (NO_CALL, NO_CALL))?;
    assert_eq!(rt; ended, Status::Ok);
    assert!(rt; has_text(&first, " open 0\n")?);
    assert!(rt; has_text(&first, "\nstate up quiet yes\n")?);
    let (ended, second) = outcome(alloc, "show", &schedule, 4096, (NO_CALL, NO_CALL))?;
    assert_eq!(rt; ended, Status::Ok);
    assert_eq!(rt; second.as_slice(), first.as_slice());
    Ok(())
}
