//! Worked texts.
use crate::{
    Cause, ScriptFault, generate, print_plan, print_schedule, read_hex, read_plan, read_schedule,
};
use mpt_text::OutOfMemory;
use std::alloc::Global;
use std::process::Abort;
use std::test::Fail;

// The printed text of what a text stands for, or its first fault, as it is told.
fn answer(alloc: Global, text: &[u8]) -> Result<Vec<u8>, OutOfMemory> {
    match read_schedule(alloc, text) {
        Ok(schedule) => print_schedule(alloc, &schedule)?.as_bytes().to_vec(alloc),
        Err(ScriptFault::At { line, cause }) => told(alloc, line, cause),
        Err(ScriptFault::OutOfMemory) => Err(OutOfMemory),
    }
}

fn told(alloc: Global, line: u32, cause: Cause) -> Result<Vec<u8>, OutOfMemory> {
    let mut text = mpt_text::Text::new(alloc);
    text.push_decimal(u64::from(line))?;
    text.push(b" ")?;
    text.push(cause.word())?;
    text.as_bytes().to_vec(alloc)
}

fn assert_answers(
    rt: &impl Abort,
    alloc: Global,
    cases: &[(&str, &str)],
) -> Result<(), OutOfMemory> {
    for (text, wanted) in cases {
        let found = answer(alloc, text.as_bytes())?;
        assert_eq!(rt; found.as_slice(), wanted.as_bytes(), "{text}");
    }
    Ok(())
}

#[test]
fn forms(rt: HostRuntime) -> Result<(), Fail> {
    let alloc = rt.alloc();
    let long = "queues 8\ndisk 5000c50000000001 1\ndisk 5000c50000000002 1024\nexpander 0 1\n\
        expander 1 22\nplug 5000c50000000001 0 0\nplug 5000c50000000002 1 21\n\
        unplug 5000c50000000001\nstart\nreset\nunit\ntreset ffffffffffffffff\n\
        submit 4294967295 0000000000000000 tur\nsubmit 0 5000c50000000001 inquiry 65535\n\
        submit 1 5000c50000000001 capacity\nsubmit 1 5000c50000000001 read 4294967295 65535\n\
        submit 2 5000c50000000001 write 0 1 ff\n\
        submit 3 5000c50000000001 read16 18446744073709551615 0\n\
        submit 4 5000c50000000001 write16 18446744073709551615 8 0a\n\
        submit 5 5000c50000000001 raw 00 0\nsubmit 6 5000c50000000001 raw \
        000102030405060708090a0b0c0d0e0f101112131415161718191a1b1c1d1e1f 4294967295\nabort 7\n\
        host-put\nhost-take 2\nioc-take 64\nioc-high\nioc-normal\nioc-out\nioc-back\nioc-put 3\n\
        fabric-take\nfabric-say\nfabric-put 9\nfabric-run 65535\nioc-put-on 7\n\
        ioc-put-on 1 2\nhost-take-on 7 64\nhost-take-on 2\ndrain\n";
    let cases: [(&str, &str); 7] = [
        ("", ""),
        ("\n\n#\n# drain\n", ""),
        (long, long),
        ("# 1\n\nqueues 1\n#\ndrain\n", "queues 1\ndrain\n"),
        ("disk 5000C5000000000A 16\n", "disk 5000c5000000000a 16\n"),
        ("ioc-take 1\n", "ioc-take\n"),
        (
            "submit 1 ABCDEF0123456789 write 0 1 FF\n",
            "submit 1 abcdef0123456789 write 0 1 ff\n",
        ),
    ];
    assert_answers(&rt, alloc, &cases)?;
    Ok(())
}

#[test]
fn causes(rt: HostRuntime) -> Result<(), Fail> {
    let alloc = rt.alloc();
    let cases: [(&str, &str); 66] = [
        ("start", "1 unended"),
        ("start\nbogus", "2 unended"),
        ("bogus\nstart", "1 form"),
        ("#", "1 unended"),
        ("start\r\n", "1 form"),
        ("\r\n", "1 form"),
        (" start\n", "1 form"),
        ("start \n", "1 form"),
        ("submit  1 5000c50000000001 tur\n", "1 form"),
        ("submit 1\t5000c50000000001 tur\n", "1 form"),
        ("Start\n", "1 form"),
        ("start 1\n", "1 form"),
        ("drain 1\n", "1 form"),
        ("submitter 0\n", "1 form"),
        ("fabric\n", "1 form"),
        ("queues\n", "1 form"),
        ("queues 01\n", "1 form"),
        ("queues +1\n", "1 form"),
        ("queues -1\n", "1 form"),
        ("queues 1 1\n", "1 form"),
        ("disk 5000c5000000001 1\n", "1 form"),
        ("disk 5000c500000000001 1\n", "1 form"),
        ("disk 5000c5000000000g 1\n", "1 form"),
        ("plug 5000c50000000001 0\n", "1 form"),
        ("submit 1 5000c50000000001\n", "1 form"),
        ("submit 1 5000c50000000001 tur 1\n", "1 form"),
        ("submit 1 5000c50000000001 read 0\n", "1 form"),
        ("submit 1 5000c50000000001 write 0 1 1\n", "1 form"),
        ("submit 1 5000c50000000001 write 0 1 001\n", "1 form"),
        ("submit 1 5000c50000000001 raw 000 1\n", "1 form"),
        ("submit 1 5000c50000000001 raw  1\n", "1 form"),
        ("submit 1 5000c50000000001 raw 0g 1\n", "1 form"),
        (
            "submit 99999999999999999999 5000c50000000001 bogus\n",
            "1 form",
        ),
        ("fabric-run\n", "1 form"),
        ("fabric-run 1 2\n", "1 form"),
        ("host-put 1 2\n", "1 form"),
        ("ioc-put-on\n", "1 form"),
        ("ioc-put-on 1 2 3\n", "1 form"),
        ("queues 0\n", "1 range"),
        ("queues 9\n", "1 range"),
        ("disk 5000c50000000001 0\n", "1 range"),
        ("disk 5000c50000000001 1025\n", "1 range"),
        (
            "disk 5000c50000000001 340282366920938463463374607431768211457\n",
            "1 range",
        ),
        ("expander 7 23\n", "1 range"),
        ("expander 0 0\n", "1 range"),
        ("submit 4294967296 5000c50000000001 tur\n", "1 range"),
        ("abort 18446744073709551616\n", "1 range"),
        ("submit 1 5000c50000000001 inquiry 65536\n", "1 range"),
        ("submit 1 5000c50000000001 read 4294967296 1\n", "1 range"),
        (
            "submit 1 5000c50000000001 read16 18446744073709551616 1\n",
            "1 range",
        ),
        (
            "submit 1 5000c50000000001 raw \
             000102030405060708090a0b0c0d0e0f101112131415161718191a1b1c1d1e1f20 1\n",
            "1 range",
        ),
        ("host-put 0\n", "1 range"),
        ("host-put 65\n", "1 range"),
        ("ioc-put-on 0\n", "1 range"),
        ("host-take-on 8\n", "1 range"),
        ("fabric-run 65536\n", "1 range"),
        ("start\nqueues 2\n", "2 order"),
        ("queues 2\nqueues 2\n", "2 order"),
        ("start\ndisk 5000c50000000001 1\n", "2 order"),
        ("expander 1 1\n", "1 order"),
        (
            "disk 5000c50000000001 1\n# 2\ndisk 5000C50000000001 2\n",
            "3 again",
        ),
        (
            "disk 5000c50000000001 16\nplug 5000c50000000002 0 0\n",
            "2 name",
        ),
        (
            "disk 5000c50000000001 16\nexpander 0 1\nplug 5000c50000000001 0 1\n",
            "3 name",
        ),
        (
            "disk 5000c50000000001 16\nplug 5000c50000000001 99999999999999999999 0\n",
            "2 name",
        ),
        ("unplug 5000c50000000001\n", "1 name"),
        ("queues 2\nioc-put-on 1\nhost-take-on 2 5\n", "3 name"),
    ];
    assert_answers(&rt, alloc, &cases)?;
    Ok(())
}

// A line again and again, and then another.
fn repeated(alloc: Global, line: &str, times: u32, last: &str) -> Result<Vec<u8>, OutOfMemory> {
    let mut text = Vec::new(alloc);
    for _ in 0..times {
        text.extend_from_slice(line.as_bytes())?;
    }
    text.extend_from_slice(last.as_bytes())?;
    Ok(text)
}

#[test]
fn limits_cuts_and_numbers(rt: HostRuntime) -> Result<(), Fail> {
    let alloc = rt.alloc();
    let block = "submit 1 5000c50000000001 read 0 8\n";
    let cases: [(&str, u32, &str, &str); 4] = [
        ("reset\n", 64, "", ""),
        ("unit\n", 64, "reset\n", "65 many"),
        (block, 4096, "submit 1 5000c50000000001 read 0 9\n", ""),
        (
            block,
            4096,
            "submit 1 5000c50000000001 inquiry 1\n",
            "4097 many",
        ),
    ];
    for (line, times, last, wanted) in cases {
        let text = repeated(alloc, line, times, last)?;
        let found = answer(alloc, text.as_slice())?;
        if wanted.is_empty() {
            assert_eq!(&rt; found, text, "{line}");
        } else {
            assert_eq!(&rt; found.as_slice(), wanted.as_bytes(), "{line}");
        }
    }

    let text = b"disk 5000c50000000001 16\nexpander 0 1\nplug 5000c50000000001 0 0\nstart\ndrain\n";
    for end in 0..text.len() {
        let part = &text[..end];
        let lines = part.iter().filter(|byte| **byte == b'\n').count();
        let found = answer(alloc, part)?;
        if part.is_empty() || part.last() == Some(&b'\n') {
            assert_eq!(&rt; found.as_slice(), part);
        } else {
            let wanted = told(alloc, lines as u32 + 1, Cause::Unended)?;
            assert_eq!(&rt; found, wanted);
        }
    }

    let zero = print_schedule(alloc, &generate(alloc, 0)?)?;
    let head = b"plug 5000c50000000008 0 7\nstart\ndrain\nsubmit 1 5000c50000000005 write 4 1 01\n";
    assert!(&rt;
        zero.as_bytes()
            .windows(head.len())
            .any(|part| part == head.as_slice())
    );
    for number in [0, 7, u64::MAX] {
        let text = print_schedule(alloc, &generate(alloc, number)?)?;
        let again = answer(alloc, text.as_bytes())?;
        assert_eq!(&rt; again.as_slice(), text.as_bytes(), "{number}");
    }

    let pairs = read_hex(alloc, b" 0a\tB\r\nc \n")?;
    assert_eq!(&rt; pairs.as_slice(), b"\x0a\xbc".as_slice());
    let fault = ScriptFault::At {
        line: 1,
        cause: Cause::Hex,
    };
    assert_eq!(&rt; read_hex(alloc, b"0a0"), Err(fault));
    Ok(())
}

fn plan_answer(alloc: Global, text: &[u8]) -> Result<Vec<u8>, OutOfMemory> {
    match read_plan(alloc, text) {
        Ok(plan) => print_plan(alloc, &plan)?.as_bytes().to_vec(alloc),
        Err(ScriptFault::At { line, cause }) => told(alloc, line, cause),
        Err(ScriptFault::OutOfMemory) => Err(OutOfMemory),
    }
}

#[test]
fn plans(rt: HostRuntime) -> Result<(), Fail> {
    let alloc = rt.alloc();
    let setup = "disk 5000c50000000001 16\nexpander 0 1\n";
    let short = "disk 5000c50000000001 16\nexpander 0 1\nplug 5000c50000000001 0 0\nsubmitter 0\n\
        submit 1 5000c50000000001 write 0 1 11\nsubmit 2 5000c50000000001 read 0 1\n\
        submitter 1\nsubmit 3 5000c50000000001 write 1 1 22\nsubmit 4 5000c50000000001 tur\n";
    let long = "queues 2\ndisk 5000c50000000001 16\nexpander 0 2\nsubmitter 0\nsubmitter 1\n\
        abort 1\ntreset 5000c50000000002\nreset\nfabric\nplug 5000c50000000001 0 1\n\
        unplug 5000c50000000001\n";
    let whole: [(&str, &str, &str); 8] = [
        ("", "", ""),
        ("", "fabric\n", ""),
        ("", "queues 1\n", ""),
        ("", short, short),
        ("", long, long),
        (
            setup,
            "fabric\nplug 5000c50000000001 0 0\n",
            "fabric\nplug 5000c50000000001 0 0\n",
        ),
        (
            setup,
            "#\nplug 5000C50000000001 0 0\n\n",
            "plug 5000c50000000001 0 0\n",
        ),
        (setup, "submitter 0\nfabric\n", "submitter 0\n"),
    ];
    for (before, text, printed) in whole {
        let given = repeated(alloc, before, 1, text)?;
        let wanted = repeated(alloc, before, 1, printed)?;
        assert_eq!(&rt; plan_answer(alloc, given.as_slice())?, wanted, "{text}");
    }
    let refused: [(&str, &str); 27] = [
        ("fabric", "3 unended"),
        ("start\n", "3 form"),
        ("unit\n", "3 form"),
        ("drain\n", "3 form"),
        ("host-put\n", "3 form"),
        ("fabric 1\n", "3 form"),
        ("submitter\n", "3 form"),
        ("submitter 00\n", "3 form"),
        (
            "submitter 0\nsubmit 4294967296 5000c50000000001 tur\n",
            "4 range",
        ),
        ("queues 2\n", "3 order"),
        (
            "plug 5000c50000000001 0 0\ndisk 5000c50000000002 1\n",
            "4 order",
        ),
        ("submitter 0\ndisk 5000c50000000002 1\n", "4 order"),
        ("fabric\nexpander 1 1\n", "4 order"),
        ("submitter 0\nplug 5000c50000000001 0 0\n", "4 order"),
        ("unplug 5000c50000000001\n", "3 order"),
        ("submitter 0\nunplug 5000c50000000001\n", "4 order"),
        ("submit 1 5000c50000000001 tur\n", "3 order"),
        ("fabric\nreset\n", "4 order"),
        ("submitter 1\n", "3 order"),
        ("submitter 0\nsubmitter 0\n", "4 order"),
        ("submitter 99999999999999999999\n", "3 order"),
        ("fabric\nsubmitter 0\n", "4 order"),
        ("fabric\nfabric\n", "4 order"),
        (
            "submitter 0\nsubmit 7 5000c50000000001 tur\nsubmitter 1\nsubmit 7 0000000000000000 tur\n",
            "6 again",
        ),
        (
            "submitter 0\nsubmitter 1\nsubmitter 2\nsubmitter 3\nsubmitter 4\nsubmitter 5\n\
             submitter 6\nsubmitter 7\nsubmitter 8\n",
            "11 many",
        ),
        ("plug 5000c50000000001 0 1\n", "3 name"),
        ("fabric\nunplug 5000c50000000002\n", "4 name"),
    ];
    for (text, wanted) in refused {
        let given = repeated(alloc, setup, 1, text)?;
        let found = plan_answer(alloc, given.as_slice())?;
        assert_eq!(&rt; found.as_slice(), wanted.as_bytes(), "{text}");
    }
    let crowded = repeated(alloc, "abort 1\n", 4097, "")?;
    let given = repeated(alloc, "submitter 0\n", 1, "")?;
    let mut text = given;
    text.extend_from_slice(crowded.as_slice())?;
    let found = plan_answer(alloc, text.as_slice())?;
    assert_eq!(&rt; found.as_slice(), b"4098 many".as_slice());
    Ok(())
}
