//! Worked lines.
use crate::{
    AbortOutcome, Ask, Back, Choice, CommandForm, DiskLine, DiskLines, Down, Entry, HostState,
    Input, Item, LaneName, Out, OutOfMemory, Outcome, Party, Refusal, RefusedCall, Summary,
    TargetOutcome, Tell, Trace, Up, cdb_names_the_length, command_of, entry_text, in_show,
    line_reads_back, lines_tell_apart, lines_tell_traces_apart, party, summary_text,
};
use scsi_disk::{Bytes, Cdb, Command, ScsiResult};
use std::alloc::Global;
use std::process::Abort;
use std::test::Fail;

const A: u64 = 0x5000_c500_0000_0001;

const B: u64 = 0x5000_c500_0000_0002;

const SENSE: &[u8] = b"\x70\x00\x05\x00\x00\x00\x00\x0a\x00\x00\x00\x00\x21\x00\x00\x00\x00\x00";

fn bytes(rt: &impl Abort, alloc: Global, items: &[u8]) -> Result<Bytes, OutOfMemory> {
    assert!(rt; items.len() <= Bytes::MAX_LEN);
    Ok(Bytes::new(items.to_vec(alloc)?))
}

fn answered(
    rt: &impl Abort,
    alloc: Global,
    status: u8,
    payload: &[u8],
    sense: &[u8],
) -> Result<ScsiResult, OutOfMemory> {
    Ok(ScsiResult {
        status,
        payload: bytes(rt, alloc, payload)?,
        sense: bytes(rt, alloc, sense)?,
    })
}

fn number(party: Party) -> u8 {
    match party {
        Party::Host => 0,
        Party::Ioc => 1,
        Party::Fabric => 2,
        Party::Submitter(i) => i.saturating_add(3),
    }
}

// The lines of a party's entries, of them and of their copies, and whether the short report has them.
fn assert_lines(
    rt: &impl Abort,
    alloc: Global,
    shown: bool,
    cases: &[(Entry, u8, &str)],
) -> Result<(), OutOfMemory> {
    for (entry, of, line) in cases {
        let text = entry_text(alloc, entry)?;
        assert_eq!(rt; text.as_bytes(), line.as_bytes(), "{line}");
        let copied = entry_text(alloc, &entry.copy(alloc)?)?;
        assert_eq!(rt; copied.as_bytes(), line.as_bytes(), "{line}");
        assert_eq!(rt; in_show(entry), shown, "{line}");
        assert_eq!(rt; number(party(entry)), *of, "{line}");
    }
    Ok(())
}

fn submit(n: u32, form: CommandForm) -> Entry {
    Entry::Given(Input::Submit {
        n,
        address: A,
        form,
    })
}

#[test]
fn inputs_and_choices(rt: HostRuntime) -> Result<(), Fail> {
    let alloc = rt.alloc();
    let cdb = Cdb::new(b"\xa0\x0b");
    let inputs: [(Entry, u8, &str); 15] = [
        (Entry::Given(Input::Start), 0, "in start\n"),
        (
            submit(1, CommandForm::Tur),
            0,
            "in submit 1 5000c50000000001 tur\n",
        ),
        (
            submit(20, CommandForm::Inquiry { len: 64 }),
            0,
            "in submit 20 5000c50000000001 inquiry 64\n",
        ),
        (
            submit(300, CommandForm::Capacity),
            0,
            "in submit 300 5000c50000000001 capacity\n",
        ),
        (
            submit(4, CommandForm::Read { lba: 15, blocks: 1 }),
            0,
            "in submit 4 5000c50000000001 read 15 1\n",
        ),
        (
            submit(
                5,
                CommandForm::Write {
                    lba: 0,
                    blocks: 1,
                    fill: 0x11,
                },
            ),
            0,
            "in submit 5 5000c50000000001 write 0 1 11\n",
        ),
        (
            submit(
                6,
                CommandForm::Read16 {
                    lba: 8589934592,
                    blocks: 8,
                },
            ),
            0,
            "in submit 6 5000c50000000001 read16 8589934592 8\n",
        ),
        (
            submit(
                7,
                CommandForm::Write16 {
                    lba: 10,
                    blocks: 2,
                    fill: 0x0a,
                },
            ),
            0,
            "in submit 7 5000c50000000001 write16 10 2 0a\n",
        ),
        (
            submit(8, CommandForm::Raw { cdb, len: 16 }),
            0,
            "in submit 8 5000c50000000001 raw a00b 16\n",
        ),
        (Entry::Given(Input::Abort { n: 1 }), 0, "in abort 1\n"),
        (
            Entry::Given(Input::TargetReset { address: A }),
            0,
            "in treset 5000c50000000001\n",
        ),
        (Entry::Given(Input::Reset), 0, "in reset\n"),
        (Entry::Given(Input::UnitReset), 0, "in unit\n"),
        (
            Entry::Given(Input::Plug {
                address: B,
                expander: 0,
                phy: 21,
            }),
            2,
            "in plug 5000c50000000002 0 21\n",
        ),
        (
            Entry::Given(Input::Unplug { address: B }),
            2,
            "in unplug 5000c50000000002\n",
        ),
    ];
    assert_lines(&rt, alloc, false, &inputs)?;
    let choices: [(Entry, u8, &str); 14] = [
        (Entry::Idle(Choice::HostPut), 0, "idle host-put\n"),
        (Entry::Idle(Choice::HostTake), 0, "idle host-take\n"),
        (
            Entry::Idle(Choice::HostTakeOn(7)),
            0,
            "idle host-take-on 7\n",
        ),
        (Entry::Idle(Choice::IocTake), 1, "idle ioc-take\n"),
        (Entry::Idle(Choice::IocHigh), 1, "idle ioc-high\n"),
        (Entry::Idle(Choice::IocNormal), 1, "idle ioc-normal\n"),
        (Entry::Idle(Choice::IocOut), 1, "idle ioc-out\n"),
        (Entry::Idle(Choice::IocBack), 1, "idle ioc-back\n"),
        (Entry::Idle(Choice::IocPut), 1, "idle ioc-put\n"),
        (Entry::Idle(Choice::IocPutOn(1)), 1, "idle ioc-put-on 1\n"),
        (Entry::Idle(Choice::FabricTake), 2, "idle fabric-take\n"),
        (Entry::Idle(Choice::FabricSay), 2, "idle fabric-say\n"),
        (Entry::Idle(Choice::FabricPut), 2, "idle fabric-put\n"),
        (
            Entry::Idle(Choice::FabricRun(65535)),
            2,
            "idle fabric-run 65535\n",
        ),
    ];
    assert_lines(&rt, alloc, false, &choices)?;
    Ok(())
}

fn put(lane: LaneName, item: Item) -> Entry {
    Entry::Put { lane, item }
}

fn take(lane: LaneName, item: Item) -> Entry {
    Entry::Take { lane, item }
}

fn down(item: Down) -> Entry {
    put(LaneName::Down, Item::Down(item))
}

fn out(item: Out) -> Entry {
    put(LaneName::Out, Item::Out(item))
}

fn back(item: Back) -> Entry {
    put(LaneName::Back, Item::Back(item))
}

#[test]
fn host_and_controller(rt: HostRuntime) -> Result<(), Fail> {
    let alloc = rt.alloc();
    let mut frame = [0; 128];
    frame[0] = 0xa0;
    frame[127] = 0x0f;
    let post = Down::Post {
        descriptor: 0x000a_0000_0001_0000,
        frame,
        payload: bytes(&rt, alloc, &[0x11; 512])?,
    };
    let reply = Up::Reply {
        descriptor: 0x0001_0000_0001_0001,
        frame: Some(frame),
        page: bytes(&rt, alloc, b"")?,
        sense: bytes(&rt, alloc, SENSE)?,
    };
    let success = Up::Reply {
        descriptor: 0x0000_0001_0001_0000,
        frame: None,
        page: bytes(&rt, alloc, b"\x01\x02")?,
        sense: bytes(&rt, alloc, b"")?,
    };
    let cases: [(Entry, u8, &str); 12] = [
        (down(Down::Read { reg: 0 }), 0, "put down read 0000\n"),
        (
            take(LaneName::Down, Item::Down(Down::Read { reg: 0 })),
            1,
            "take down read 0000\n",
        ),
        (
            put(LaneName::Up, Item::Up(Up::Value(0x1000_0000))),
            1,
            "put up value 10000000\n",
        ),
        (
            take(LaneName::Up, Item::Up(Up::Value(0x1000_0000))),
            0,
            "take up value 10000000\n",
        ),
        (
            down(Down::Write {
                reg: 0x6c,
                value: 0x4203_0000,
            }),
            0,
            "put down write 006c 42030000\n",
        ),
        (
            down(post),
            0,
            "put down post 0000010000000a00 a00000000000000000000000000000000000000000000000000000000000000000000000000000000000000000000000000000000000000000000000000000000000000000000000000000000000000000000000000000000000000000000000000000000000000000000000000000000000000000000000000000000000000f 512*11\n",
        ),
        (
            down(Down::Return {
                address: 0x0001_0080,
                index: 65,
            }),
            0,
            "put down return 00010080 0041\n",
        ),
        (down(Down::Stop), 0, "put down stop\n"),
        (
            put(LaneName::Up, Item::Up(reply)),
            1,
            "put up reply 0100010000000100 a00000000000000000000000000000000000000000000000000000000000000000000000000000000000000000000000000000000000000000000000000000000000000000000000000000000000000000000000000000000000000000000000000000000000000000000000000000000000000000000000000000000000000f - 700005000000000a00000000210000000000\n",
        ),
        (
            take(LaneName::UpOn(7), Item::Up(success)),
            0,
            "take up7 reply 0000010001000000 - 0102 -\n",
        ),
        (
            put(LaneName::UpOn(1), Item::Up(Up::Mark { generation: 12 })),
            1,
            "put up1 mark 12\n",
        ),
        (put(LaneName::Up, Item::Up(Up::Calm)), 1, "put up calm\n"),
    ];
    assert_lines(&rt, alloc, false, &cases)?;
    Ok(())
}

#[test]
fn controller_and_fabric(rt: HostRuntime) -> Result<(), Fail> {
    let alloc = rt.alloc();
    let command = Command {
        lun: 1,
        cdb: Cdb::new(b"\x28\x00\x00\x00\x00\x0f\x00\x00\x01\x00"),
        len: 512,
        payload: bytes(&rt, alloc, b"")?,
    };
    let result = answered(&rt, alloc, 0, &[0; 512], b"")?;
    let cases: [(Entry, u8, &str); 18] = [
        (
            out(Out::Task {
                tag: 7,
                address: A,
                command,
            }),
            1,
            "put out task 7 5000c50000000001 0000000000000001 28000000000f00000100 512 -\n",
        ),
        (
            out(Out::Abort { smid: 257, task: 7 }),
            1,
            "put out abort 257 7\n",
        ),
        (
            out(Out::TargetReset {
                smid: 258,
                address: A,
            }),
            1,
            "put out treset 258 5000c50000000001\n",
        ),
        (out(Out::Discover), 1, "put out discover\n"),
        (out(Out::Link { generation: 3 }), 1, "put out link 3\n"),
        (
            take(LaneName::Out, Item::Out(Out::Stop)),
            2,
            "take out stop\n",
        ),
        (
            back(Back::Result { tag: 7, result }),
            2,
            "put back result 7 00 512*00 -\n",
        ),
        (back(Back::Gone { tag: 7 }), 2, "put back gone 7\n"),
        (
            back(Back::Terminated { tag: 7 }),
            2,
            "put back terminated 7\n",
        ),
        (
            back(Back::Aborted {
                smid: 257,
                found: true,
            }),
            2,
            "put back aborted 257 1\n",
        ),
        (
            back(Back::Aborted {
                smid: 257,
                found: false,
            }),
            2,
            "put back aborted 257 0\n",
        ),
        (
            back(Back::Cleared {
                smid: 258,
                count: 2,
            }),
            2,
            "put back cleared 258 2\n",
        ),
        (
            back(Back::Plugged {
                address: A,
                plug: 1,
                expander: 0,
                phy: 3,
            }),
            2,
            "put back plugged 5000c50000000001 1 0 3\n",
        ),
        (
            back(Back::Unplugged {
                address: A,
                plug: 1,
                expander: 0,
                phy: 3,
            }),
            2,
            "put back unplugged 5000c50000000001 1 0 3\n",
        ),
        (back(Back::Discovered), 2, "put back discovered\n"),
        (
            back(Back::Linked { generation: 3 }),
            2,
            "put back linked 3\n",
        ),
        (back(Back::Calm), 2, "put back calm\n"),
        (
            take(LaneName::Back, Item::Back(Back::Calm)),
            1,
            "take back calm\n",
        ),
    ];
    assert_lines(&rt, alloc, false, &cases)?;
    Ok(())
}

#[test]
fn sessions(rt: HostRuntime) -> Result<(), Fail> {
    let alloc = rt.alloc();
    let tell = Tell::Answer {
        n: 1,
        outcome: Outcome::Gone,
    };
    let refused = Tell::RefuseSubmit {
        n: 2,
        cause: Refusal::NoDevice,
    };
    let cases: [(Entry, u8, &str); 5] = [
        (
            put(
                LaneName::Ask(0),
                Item::Ask(Ask::Line(Input::Abort { n: 9 })),
            ),
            3,
            "put ask 0 abort 9\n",
        ),
        (
            take(LaneName::Ask(0), Item::Ask(Ask::Bye)),
            0,
            "take ask 0 bye\n",
        ),
        (
            put(LaneName::Tell(7), Item::Tell(tell)),
            0,
            "put tell 7 answer 1 gone\n",
        ),
        (
            take(LaneName::Tell(7), Item::Tell(refused)),
            10,
            "take tell 7 refuse submit 2 no-device\n",
        ),
        (
            put(LaneName::Ask(1), Item::Ask(Ask::Bye)),
            4,
            "put ask 1 bye\n",
        ),
    ];
    assert_lines(&rt, alloc, false, &cases)?;
    Ok(())
}

fn refuse(call: RefusedCall, cause: Refusal) -> Entry {
    Entry::Refuse { call, cause }
}

fn refuse_submit(cause: Refusal) -> Entry {
    Entry::RefuseSubmit { n: 257, cause }
}

fn answer(n: u32, outcome: Outcome) -> Entry {
    Entry::Answer { n, outcome }
}

#[test]
fn told(rt: HostRuntime) -> Result<(), Fail> {
    let alloc = rt.alloc();
    let read = Outcome::Done(answered(&rt, alloc, 0, &[1; 512], b"")?);
    let check = Outcome::Done(answered(&rt, alloc, 2, b"", SENSE)?);
    let cases: [(Entry, u8, &str); 34] = [
        (
            Entry::Bind {
                handle: 9,
                address: B,
                plug: 1,
            },
            1,
            "bind 0009 5000c50000000002 1\n",
        ),
        (Entry::Unbind { handle: 9 }, 1, "unbind 0009\n"),
        (Entry::UnbindAll, 1, "unbind all\n"),
        (
            Entry::Run { address: B, tag: 1 },
            2,
            "run 5000c50000000002 1\n",
        ),
        (Entry::HostUp, 0, "up\n"),
        (
            Entry::Ready {
                address: A,
                handle: 10,
            },
            0,
            "ready 5000c50000000001 000a\n",
        ),
        (
            Entry::Lost {
                address: A,
                handle: 9,
            },
            0,
            "lost 5000c50000000001 0009\n",
        ),
        (
            Entry::Accept {
                n: 4,
                address: B,
                smid: 1,
            },
            0,
            "accept 4 5000c50000000002 1\n",
        ),
        (
            refuse_submit(Refusal::NumberUsed),
            0,
            "refuse submit 257 number-used\n",
        ),
        (
            refuse_submit(Refusal::NotOperational),
            0,
            "refuse submit 257 not-operational\n",
        ),
        (
            refuse_submit(Refusal::BadLength),
            0,
            "refuse submit 257 bad-length\n",
        ),
        (
            refuse_submit(Refusal::NoIdentifier),
            0,
            "refuse submit 257 no-identifier\n",
        ),
        (
            refuse(RefusedCall::Abort(1), Refusal::NotOpen),
            0,
            "refuse abort 1 not-open\n",
        ),
        (
            refuse(RefusedCall::Abort(1), Refusal::AbortOpen),
            0,
            "refuse abort 1 abort-open\n",
        ),
        (
            refuse(RefusedCall::TargetReset(A), Refusal::NoDevice),
            0,
            "refuse treset 5000c50000000001 no-device\n",
        ),
        (
            refuse(RefusedCall::Start, Refusal::AlreadyStarted),
            0,
            "refuse start already-started\n",
        ),
        (
            refuse(RefusedCall::Reset, Refusal::NotStarted),
            0,
            "refuse reset not-started\n",
        ),
        (
            refuse(RefusedCall::UnitReset, Refusal::AlreadyResetting),
            0,
            "refuse unit already-resetting\n",
        ),
        (
            refuse(RefusedCall::Plug(A), Refusal::Occupied),
            2,
            "refuse plug 5000c50000000001 occupied\n",
        ),
        (
            refuse(RefusedCall::Plug(A), Refusal::AlreadyPlugged),
            2,
            "refuse plug 5000c50000000001 already-plugged\n",
        ),
        (
            refuse(RefusedCall::Plug(A), Refusal::PlugsSpent),
            2,
            "refuse plug 5000c50000000001 plugs-spent\n",
        ),
        (
            refuse(RefusedCall::Unplug(A), Refusal::NotPlugged),
            2,
            "refuse unplug 5000c50000000001 not-plugged\n",
        ),
        (answer(21, read), 0, "answer 21 done 00 512*01 -\n"),
        (
            answer(2, check),
            0,
            "answer 2 done 02 - 700005000000000a00000000210000000000\n",
        ),
        (answer(1, Outcome::Gone), 0, "answer 1 gone\n"),
        (answer(1, Outcome::Terminated), 0, "answer 1 terminated\n"),
        (answer(1, Outcome::Reset), 0, "answer 1 reset\n"),
        (
            Entry::AbortEnd {
                n: 1,
                outcome: AbortOutcome::Stopped,
            },
            0,
            "abort 1 stopped\n",
        ),
        (
            Entry::AbortEnd {
                n: 2,
                outcome: AbortOutcome::NotFound,
            },
            0,
            "abort 2 not-found\n",
        ),
        (
            Entry::AbortEnd {
                n: 3,
                outcome: AbortOutcome::Reset,
            },
            0,
            "abort 3 reset\n",
        ),
        (
            Entry::TargetEnd {
                address: A,
                outcome: TargetOutcome::Done(0),
            },
            0,
            "treset 5000c50000000001 done 0\n",
        ),
        (
            Entry::TargetEnd {
                address: A,
                outcome: TargetOutcome::Reset,
            },
            0,
            "treset 5000c50000000001 reset\n",
        ),
        (Entry::ResetDone, 0, "reset done\n"),
        (Entry::HostUp, 0, "up\n"),
    ];
    assert_lines(&rt, alloc, true, &cases)?;
    Ok(())
}

fn summary(alloc: Global) -> Summary {
    Summary {
        disks: DiskLines::new(Vec::new(alloc)),
        done: 0,
        gone: 0,
        terminated: 0,
        reset: 0,
        refused: 0,
        unanswered: 0,
        reading: 0,
        ready: 0,
        waiting: 0,
        resetting: 0,
        removing: 0,
        state: HostState::Off,
        quiet: true,
    }
}

#[test]
fn summaries(rt: HostRuntime) -> Result<(), Fail> {
    let alloc = rt.alloc();
    let text = summary_text(alloc, &summary(alloc))?;
    let empty =
        "answers done 0 gone 0 terminated 0 reset 0 refused 0 open 0\nphases reading 0 ready 0 waiting 0 resetting 0 removing 0\nstate off quiet yes\n";
    assert_eq!(rt; text.as_bytes(), empty.as_bytes());
    let mut disks = Vec::new(alloc);
    disks.push(DiskLine {
        address: A,
        at: None,
        sum: 0,
    })?;
    disks.push(DiskLine {
        address: B,
        at: Some((0, 3)),
        sum: 222837760,
    })?;
    let mut s = summary(alloc);
    s.disks = DiskLines::new(disks);
    s.done = 1;
    s.gone = 3;
    s.terminated = 4;
    s.reset = 2;
    s.refused = 5;
    s.unanswered = 256;
    s.reading = 6;
    s.ready = 7;
    s.waiting = 2;
    s.resetting = 8;
    s.removing = 9;
    s.state = HostState::Resetting;
    s.quiet = false;
    let text = summary_text(alloc, &s)?;
    let full =
        "disk 5000c50000000001 out sum 0\ndisk 5000c50000000002 at 0 3 sum 222837760\nanswers done 1 gone 3 terminated 4 reset 2 refused 5 open 256\nphases reading 6 ready 7 waiting 2 resetting 8 removing 9\nstate resetting quiet no\n";
    assert_eq!(rt; text.as_bytes(), full.as_bytes());
    Ok(())
}

#[test]
fn commands(rt: HostRuntime) -> Result<(), Fail> {
    let alloc = rt.alloc();
    let cases: [(CommandForm, &[u8], u32, usize, u8); 9] = [
        (CommandForm::Tur, b"\x00\x00\x00\x00\x00\x00", 0, 0, 0),
        (
            CommandForm::Inquiry { len: 258 },
            b"\x12\x00\x00\x01\x02\x00",
            258,
            0,
            0,
        ),
        (
            CommandForm::Capacity,
            b"\x25\x00\x00\x00\x00\x00\x00\x00\x00\x00",
            8,
            0,
            0,
        ),
        (
            CommandForm::Read {
                lba: 0x0102_0304,
                blocks: 9,
            },
            b"\x28\x00\x01\x02\x03\x04\x00\x00\x09\x00",
            4608,
            0,
            0,
        ),
        (
            CommandForm::Write {
                lba: 1,
                blocks: 8,
                fill: 0x11,
            },
            b"\x2a\x00\x00\x00\x00\x01\x00\x00\x08\x00",
            4096,
            4096,
            0x11,
        ),
        (
            CommandForm::Write {
                lba: 1,
                blocks: 9,
                fill: 0x11,
            },
            b"\x2a\x00\x00\x00\x00\x01\x00\x00\x09\x00",
            4608,
            0,
            0x11,
        ),
        (
            CommandForm::Read16 {
                lba: 0x0102_0304_0506_0708,
                blocks: 258,
            },
            b"\x88\x00\x01\x02\x03\x04\x05\x06\x07\x08\x00\x00\x01\x02\x00\x00",
            132096,
            0,
            0,
        ),
        (
            CommandForm::Write16 {
                lba: 5,
                blocks: 1,
                fill: 0xff,
            },
            b"\x8a\x00\x00\x00\x00\x00\x00\x00\x00\x05\x00\x00\x00\x01\x00\x00",
            512,
            512,
            0xff,
        ),
        (
            CommandForm::Raw {
                cdb: Cdb::new(b"\xa0"),
                len: 16,
            },
            b"\xa0",
            16,
            0,
            0,
        ),
    ];
    for (form, cdb, len, count, fill) in &cases {
        let command = command_of(alloc, &form.copy(alloc)?)?;
        assert_eq!(rt; command.lun, 0);
        assert_eq!(rt; command.cdb.as_slice(), *cdb);
        assert_eq!(rt; command.len, *len);
        assert_eq!(rt; command.payload.len(), *count);
        for byte in command.payload.as_slice() {
            assert_eq!(rt; *byte, *fill);
        }
    }
    Ok(())
}

#[test]
fn traces(rt: HostRuntime) -> Result<(), Fail> {
    let alloc = rt.alloc();
    let mut trace = Trace::new(alloc);
    trace.reserve(2)?;
    trace.push(Entry::HostUp)?;
    trace.push(Entry::ResetDone)?;
    assert_eq!(rt; trace.len(), 2);
    assert!(rt; matches!(trace.get(1), Some(Entry::ResetDone)));
    assert!(rt; trace.get(2).is_none());
    assert_eq!(rt; trace.as_slice().len(), 2);
    lines_tell_traces_apart(trace.as_slice(), trace.as_slice());
    lines_tell_apart(&Entry::HostUp, &Entry::UnbindAll);
    line_reads_back(&Entry::UnbindAll);
    cdb_names_the_length(&CommandForm::Capacity);
    Ok(())
}
