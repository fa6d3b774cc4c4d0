//! Worked frames, written out by hand from the headers' structures.
use crate::{
    HostAsk, IocReply, Kind, Message, MsgFault, decode_reply, decode_request, device_page, encode,
    host_frame, ioc_frame, list_page, list_reply_descriptor, list_request_descriptor, list_text,
    message_fits,
};
use config_pages::{
    PageForm, decode_device_page0, device_page0_fits, encode_device_page0, page_address,
};
use mpi_rings::{read_post, read_reply};
use std::process::Abort;
use std::test::Fail;

// TEST UNIT READY of a disk: a SCSI IO without data.
const TEST_UNIT_READY: &[u8] = b"\x0a\x00\x00\x00\x00\x00\x00\x00\x00\x00\x00\x00\x60\x00\x10\x00\
\x00\x00\x60\x00\x18\x00\x00\x00\x00\x00\x00\x00\x00\x00\x00\x00\
\x00\x00\x00\x00\x06\x00\x00\x00\x00\x00\x00\x00\x00\x00\x00\x00\
\x00\x00\x00\x00\x00\x00\x00\x00\x00\x00\x00\x00\x00\x00\x00\x00\
\x00\x00\x00\x00\x00\x00\x00\x00\x00\x00\x00\x00\x00\x00\x00\x00\
\x00\x00\x00\x00\x00\x00\x00\x00\x00\x00\x00\x00\x00\x00\x00\x00\
\x00\x00\x00\xd3\xff\xff\xff\xff\xff\xff\xff\xff";

// WRITE(10) of one block: data buffer 256 begins at 0x0000000200100000, sense buffer 256 at
// 0x00106000.
const WRITE: &[u8] = b"\x0a\x00\x00\x00\x00\x00\x00\x00\x00\x00\x00\x00\x00\x60\x10\x00\
\x00\x00\x60\x00\x18\x00\x00\x00\x00\x00\x00\x00\x00\x02\x00\x00\
\x00\x00\x00\x00\x0a\x00\x00\x00\x00\x00\x00\x00\x00\x00\x00\x00\
\x00\x00\x00\x00\x00\x00\x00\x00\x00\x00\x00\x00\x00\x00\x00\x01\
\x2a\x00\x00\x00\x00\x02\x00\x00\x01\x00\x00\x00\x00\x00\x00\x00\
\x00\x00\x00\x00\x00\x00\x00\x00\x00\x00\x00\x00\x00\x00\x00\x00\
\x00\x02\x00\xd7\x00\x00\x10\x00\x02\x00\x00\x00";

// The abort of task 3.
const ABORT: &[u8] = b"\x0a\x00\x00\x01\x00\x01\x00\x00\x00\x00\x00\x00\x00\x00\x00\x00\
\x00\x00\x00\x00\x00\x00\x00\x00\x00\x00\x00\x00\x00\x00\x00\x00\
\x00\x00\x00\x00\x00\x00\x00\x00\x00\x00\x00\x00\x00\x00\x00\x00\
\x03\x00\x00\x00";

// A read of SAS Device Page 0: data buffer 265 begins at 0x0000000200109000.
const PAGE_READ: &[u8] = b"\x01\x00\x00\x04\x0e\x00\x12\x00\x00\x00\x00\x00\x00\x00\x00\x00\
\x00\x00\x00\x00\x08\x00\x00\x0f\x0a\x00\x00\x20\x38\x00\x00\xd3\
\x00\x90\x10\x00\x02\x00\x00\x00";

// IOC Init with one reply post queue.
const INIT: &[u8] = b"\x04\x00\x00\x02\x00\x00\x00\x00\x00\x00\x00\x00\x00\x02\x00\x00\
\x00\x00\x00\x00\x00\x00\x00\x01\x00\x00\x20\x00\x60\x01\x50\x00\
\x00\x00\x00\x00\x00\x00\x00\x00\x00\x00\x00\x00\x01\x00\x00\x00\
\x00\x00\x00\x00\x03\x00\x00\x00\x00\x00\x00\x00\x04\x00\x00\x00\
\x00\x00\x00\x00\x00\x00\x00\x00";

// Event Notification: all is held back but bit 28, the topology change list.
const NOTIFICATION: &[u8] = b"\x00\x00\x00\x07\x00\x00\x00\x00\x00\x00\x00\x00\x00\x00\x00\x00\
\x00\x00\x00\x00\xff\xff\xff\xef\xff\xff\xff\xff\xff\xff\xff\xff\
\xff\xff\xff\xff\x00\x00\x00\x00\x00\x00\x00\x00";

// A plain reply to a function outside the profile: INVALID_FUNCTION.
const PLAIN: &[u8] = b"\x00\x00\x05\x1a\x00\x00\x00\x00\x00\x00\x00\x00\x00\x00\x01\x00\
\x00\x00\x00\x00";

// A CHECK CONDITION with 18 bytes of sense data and DATA_UNDERRUN.
const CHECK_CONDITION: &[u8] = b"\x0a\x00\x0a\x00\x00\x00\x00\x00\x00\x00\x00\x00\x02\x01\x45\x00\
\x00\x00\x00\x00\x00\x00\x00\x00\x12\x00\x00\x00\x00\x00\x00\x00\
\x01\x00\x00\x00\x00\x00\x00\x00";

// IOC Facts after IOC Init by WhoInit 4, with one reply post queue.
const FACTS: &[u8] = b"\x00\x02\x10\x03\x00\x00\x00\x00\x00\x00\x00\x00\x00\x00\x00\x00\
\x00\x00\x00\x00\x00\x04\x01\x01\x18\x01\x00\x00\x00\x00\x00\x00\
\x00\x00\x00\x01\x20\x00\x00\x00\x00\x00\x40\x00\x10\x00\x01\x00\
\x02\x00\x08\x00\x60\x01\x20\x00\x58\x00\x00\x00\x09\x00\x00\x00";

// The header of SAS Device Page 0, with CONFIG_INVALID_PAGE.
const CONFIG: &[u8] = b"\x01\x00\x06\x04\x0e\x00\x12\x00\x00\x00\x00\x00\x00\x00\x22\x00\
\x00\x00\x00\x00\x08\x00\x00\x0f";

// Device 0x000a was added at phy 5 of expander 2.
const ADDED: &[u8] = b"\x04\x00\x0b\x07\x00\x00\x01\x00\x00\x00\x00\x00\x00\x00\x00\x00\
\x00\x00\x00\x00\x1c\x00\x00\x00\x04\x03\x02\x01\x01\x00\x4b\x00\
\x08\x00\x00\x00\x01\x05\x03\x00\x0a\x00\x00\x01";

// The page of that device.
const PAGE: &[u8] = b"\x08\x00\x00\x0f\x0e\x00\x12\x00\x05\x00\x01\x00\x01\x00\x00\x00\
\x00\xc5\x00\x50\x4b\x00\x05\x00\x0a\x00\x00\x00\x01\x04\x00\x00\
\x01\x00\x00\x01\x01\x00\x00\x00\x00\xc5\x00\x50\x00\x00\x00\x00\
\x00\x00\x00\x00\x00\x00\x00\x00";

// The reset of target 0x000a.
const TARGET_RESET: &[u8] = b"\x0a\x00\x00\x01\x00\x03\x00\x00\x00\x00\x00\x00\x00\x00\x00\x00\
\x00\x00\x00\x00\x00\x00\x00\x00\x00\x00\x00\x00\x00\x00\x00\x00\
\x00\x00\x00\x00\x00\x00\x00\x00\x00\x00\x00\x00\x00\x00\x00\x00\
\x00\x00\x00\x00";

// The removal of device 0x000a.
const REMOVE: &[u8] = b"\x0d\x00\x00\x1b\x0a\x00\x00\x00\x00\x00\x00\x00\x00\x00\x00\x00\
\x00\x00\x00\x00\x00\x00\x00\x00\x00\x00\x00\x00\x00\x00\x00\x00\
\x00\x00\x00\x00\x00\x00\x00\x00\x00\x00\x00\x00";

// The acknowledgement of a topology change list with context 7.
const ACK: &[u8] = b"\x00\x00\x00\x08\x00\x00\x00\x00\x00\x00\x00\x00\x1c\x00\x00\x00\
\x07\x00\x00\x00";

// Port Enable.
const PORT_ENABLE: &[u8] = b"\x00\x00\x00\x06\x00\x00\x00\x00\x00\x00\x00\x00";

// IOC Facts.
const FACTS_ASK: &[u8] = b"\x00\x00\x00\x03\x00\x00\x00\x00\x00\x00\x00\x00";

// Port Facts of port 0.
const PORT_FACTS_ASK: &[u8] = b"\x00\x00\x00\x05\x00\x00\x00\x00\x00\x00\x00\x00";

// The reply to an abort that stopped one task.
const ABORTED: &[u8] = b"\x0a\x00\x07\x01\x00\x01\x00\x00\x00\x00\x00\x00\x00\x00\x00\x00\
\x00\x00\x00\x00\x01\x00\x00\x00\x00\x00\x00\x00";

// The facts of port 0, a SAS port.
const PORT_FACTS: &[u8] = b"\x00\x00\x07\x05\x00\x00\x00\x00\x00\x00\x00\x00\x00\x00\x00\x00\
\x00\x00\x00\x00\x00\x30\x00\x00\x00\x00\x00\x00";

// The reply to the removal of device 0x000a.
const REMOVED: &[u8] = b"\x0d\x00\x05\x1b\x0a\x00\x00\x00\x00\x00\x00\x00\x00\x00\x00\x00\
\x00\x00\x00\x00";

// The reply to Event Notification.
const NOTIFIED: &[u8] = b"\x00\x00\x07\x07\x00\x00\x00\x00\x00\x00\x00\x00\x00\x00\x00\x00\
\x00\x00\x00\x00\x00\x00\x00\x00\x00\x00\x00\x00";

// The reply to IOC Init in a state that takes none.
const INIT_REPLY: &[u8] = b"\x04\x00\x05\x02\x00\x00\x00\x00\x00\x00\x00\x00\x00\x00\x08\x00\
\x00\x00\x00\x00";

// The reply to Port Enable.
const ENABLED: &[u8] = b"\x00\x00\x05\x06\x00\x01\x00\x00\x00\x00\x00\x00\x00\x00\x00\x00\
\x00\x00\x00\x01";

// The reply to the acknowledgement of an event.
const ACKED: &[u8] = b"\x00\x00\x05\x08\x00\x00\x00\x00\x00\x00\x00\x00\x00\xee\x00\x00\
\x00\x00\x00\x00";

// A SCSI IO reply with a tail of 8 bytes.
const WITH_TAIL: &[u8] = b"\x0a\x00\x0c\x00\x00\x00\x00\x00\x00\x00\x00\x00\x02\x01\x45\x00\
\x00\x00\x00\x00\x00\x00\x00\x00\x12\x00\x00\x00\x00\x00\x00\x00\
\x01\x00\x00\x00\x00\x00\x00\x00\x07\x00\x00\x00\x00\x00\x00\x08";

// A topology change list of no entry, with 4 bytes behind it.
const NO_ENTRY: &[u8] = b"\x04\x00\x00\x07\x00\x00\x00\x00\x00\x00\x00\x00\x00\x00\x00\x00\
\x00\x00\x00\x00\x1c\x00\x00\x00\x00\x00\x00\x00\x00\x00\x00\x00\
\x00\x00\x00\x00\x00\x00\x00\x00\x09\x00\x00\x01";

// Another event, with 8 bytes of data.
const OTHER_EVENT: &[u8] = b"\x02\x00\x00\x07\x00\x00\x00\x00\x00\x00\x00\x00\x00\x00\x00\x00\
\x00\x00\x00\x00\x0e\x00\x00\x00\x00\x00\x00\x00\xaa\x00\x00\x00\
\x00\x00\x00\xbb";

// A message's bytes, the way that a request travels or none for a reply, and two lines of its
// listing: the first, and one of a row.
#[derive(Clone, Copy)]
struct Worked {
    kind: Option<Kind>,
    bytes: &'static [u8],
    heading: &'static str,
    row: &'static str,
}

fn frame_of(
    kind: Option<Kind>,
    bytes: &'static [u8],
    heading: &'static str,
    row: &'static str,
) -> Worked {
    Worked {
        kind,
        bytes,
        heading,
        row,
    }
}

// The frame is these bytes, and zeros past them.
fn shows(rt: &impl Abort, length: usize, frame: &[u8], bytes: &[u8]) {
    assert_eq!(rt; length, bytes.len());
    assert!(rt; frame.starts_with(bytes));
    assert!(rt; frame.iter().skip(length).all(|byte| *byte == 0));
}

#[test]
fn the_host_writes_commands_and_its_start(rt: HostRuntime) {
    let mut out = [0xff; 128];
    let mut ask = HostAsk::ScsiIo {
        smid: 1,
        handle: 0x000a,
        lun: 0,
        cdb: [0; 16],
        cdb_len: 6,
        len: 0,
        write: false,
    };
    shows(&rt, host_frame(&ask, &mut out), &out, TEST_UNIT_READY);
    ask = HostAsk::ScsiIo {
        smid: 256,
        handle: 0x000a,
        lun: 0,
        cdb: [0x2a, 0, 0, 0, 0, 2, 0, 0, 1, 0, 0, 0, 0, 0, 0, 0],
        cdb_len: 10,
        len: 512,
        write: true,
    };
    shows(&rt, host_frame(&ask, &mut out), &out, WRITE);
    ask = HostAsk::Task {
        handle: 0x000a,
        task_type: 1,
        task_mid: 3,
    };
    shows(&rt, host_frame(&ask, &mut out), &out, ABORT);
    ask = HostAsk::PageRead {
        smid: 265,
        handle: 0x000a,
    };
    shows(&rt, host_frame(&ask, &mut out), &out, PAGE_READ);
    ask = HostAsk::Init { queues: 1 };
    shows(&rt, host_frame(&ask, &mut out), &out, INIT);
    ask = HostAsk::Notification;
    shows(&rt, host_frame(&ask, &mut out), &out, NOTIFICATION);
}

#[test]
fn the_controller_writes_results_facts_and_events(rt: HostRuntime) {
    let mut out = [0xff; 128];
    let mut reply = IocReply::Plain {
        function: 0x1a,
        status: 0x0001,
    };
    shows(&rt, ioc_frame(&reply, &mut out), &out, PLAIN);
    reply = IocReply::Scsi {
        handle: 0x000a,
        smid: 1,
        scsi_status: 0x02,
        status: 0x0045,
        moved: 0,
        sense: 18,
    };
    shows(&rt, ioc_frame(&reply, &mut out), &out, CHECK_CONDITION);
    reply = IocReply::Facts {
        who_init: 4,
        queues: 1,
    };
    shows(&rt, ioc_frame(&reply, &mut out), &out, FACTS);
    reply = IocReply::Config {
        action: 1,
        ext_type: 0x12,
        status: 0x0022,
    };
    shows(&rt, ioc_frame(&reply, &mut out), &out, CONFIG);
    reply = IocReply::Topology {
        context: 0x0102_0304,
        handle: 0x000a,
        expander: 2,
        phys: 8,
        phy: 5,
        added: true,
    };
    shows(&rt, ioc_frame(&reply, &mut out), &out, ADDED);
    out = [0; 128];
    let page = device_page(0x000a, 0x5000_c500_0000_0001, 2, 5);
    shows(&rt, encode_device_page0(&page, &mut out), &out, PAGE);
    assert!(rt; device_page0_fits(&page));
    assert_eq!(rt; decode_device_page0(PAGE), Ok(page));
    assert_eq!(rt; page_address(PageForm::ByHandle, 0x000a), 0x2000_000a);
    assert_eq!(rt; page_address(PageForm::Next, 0xffff), 0x0000_ffff);
}

#[test]
fn the_host_writes_its_other_requests(rt: HostRuntime) {
    let mut out = [0; 128];
    let mut ask = HostAsk::Task {
        handle: 0x000a,
        task_type: 3,
        task_mid: 0,
    };
    shows(&rt, host_frame(&ask, &mut out), &out, TARGET_RESET);
    ask = HostAsk::Remove { handle: 0x000a };
    shows(&rt, host_frame(&ask, &mut out), &out, REMOVE);
    ask = HostAsk::Ack {
        event: 0x001c,
        context: 7,
    };
    shows(&rt, host_frame(&ask, &mut out), &out, ACK);
    ask = HostAsk::PortEnable;
    shows(&rt, host_frame(&ask, &mut out), &out, PORT_ENABLE);
    ask = HostAsk::Facts;
    shows(&rt, host_frame(&ask, &mut out), &out, FACTS_ASK);
    ask = HostAsk::PortFacts;
    shows(&rt, host_frame(&ask, &mut out), &out, PORT_FACTS_ASK);
}

#[test]
fn the_controller_writes_its_other_replies(rt: HostRuntime) {
    let mut out = [0; 128];
    let mut reply = IocReply::Task {
        handle: 0x000a,
        task_type: 1,
        status: 0x0000,
        code: 0x00,
        count: 1,
    };
    shows(&rt, ioc_frame(&reply, &mut out), &out, ABORTED);
    reply = IocReply::PortFacts {
        port: 0,
        status: 0x0000,
    };
    shows(&rt, ioc_frame(&reply, &mut out), &out, PORT_FACTS);
    reply = IocReply::Removed {
        handle: 0x000a,
        operation: 0x0d,
        status: 0x0000,
    };
    shows(&rt, ioc_frame(&reply, &mut out), &out, REMOVED);
    reply = IocReply::Notified;
    shows(&rt, ioc_frame(&reply, &mut out), &out, NOTIFIED);
}

// What a frame is read as, or why it is refused.
fn decoded(kind: Option<Kind>, bytes: &[u8]) -> Result<Message, MsgFault> {
    match kind {
        Some(kind) => decode_request(kind, bytes),
        None => decode_reply(bytes),
    }
}

// Whether a text has this line.
fn has_line(text: &[u8], line: &str) -> bool {
    text.split(|byte| *byte == b'\n')
        .any(|found| found == line.as_bytes())
}

#[test]
fn each_message_is_read_written_and_listed(rt: HostRuntime) -> Result<(), Fail> {
    let messages = [
        frame_of(
            Some(Kind::ScsiIo),
            TEST_UNIT_READY,
            "scsi-io 108",
            "24 IoFlags 0x0006",
        ),
        frame_of(
            Some(Kind::ScsiIo),
            WRITE,
            "scsi-io 108",
            "1c DataLength 0x00000200",
        ),
        frame_of(
            Some(Kind::HighPriority),
            ABORT,
            "task-mgmt 52",
            "30 TaskMID 0x0003",
        ),
        frame_of(
            Some(Kind::HighPriority),
            TARGET_RESET,
            "task-mgmt 52",
            "05 TaskType 0x03",
        ),
        frame_of(
            Some(Kind::Handshake),
            INIT,
            "ioc-init 72",
            "1c ReplyDescriptorPostQueueDepth 0x0160",
        ),
        frame_of(
            Some(Kind::Handshake),
            FACTS_ASK,
            "ioc-facts 12",
            "03 Function 0x03",
        ),
        frame_of(
            Some(Kind::Handshake),
            PORT_FACTS_ASK,
            "port-facts 12",
            "06 PortNumber 0x00",
        ),
        frame_of(
            Some(Kind::Default),
            PAGE_READ,
            "config 40",
            "18 PageAddress 0x2000000a",
        ),
        frame_of(
            Some(Kind::Default),
            PORT_ENABLE,
            "port-enable 12",
            "05 PortFlags 0x00",
        ),
        frame_of(
            Some(Kind::Default),
            NOTIFICATION,
            "event-notification 44",
            "14 EventMasks0 0xefffffff",
        ),
        frame_of(
            Some(Kind::Default),
            ACK,
            "event-ack 20",
            "10 EventContext 0x00000007",
        ),
        frame_of(
            Some(Kind::Default),
            REMOVE,
            "sas-unit-control 44",
            "04 DevHandle 0x000a",
        ),
        frame_of(
            None,
            CHECK_CONDITION,
            "scsi-io-reply 40",
            "18 SenseCount 0x00000012",
        ),
        frame_of(
            None,
            WITH_TAIL,
            "scsi-io-reply 48",
            "28 Tail 0700000000000008",
        ),
        frame_of(
            None,
            ABORTED,
            "task-mgmt-reply 28",
            "14 TerminationCount 0x00000001",
        ),
        frame_of(None, INIT_REPLY, "ioc-init-reply 20", "0e IOCStatus 0x0008"),
        frame_of(None, FACTS, "ioc-facts-reply 64", "18 RequestCredit 0x0118"),
        frame_of(None, CONFIG, "config-reply 24", "0e IOCStatus 0x0022"),
        frame_of(None, PORT_FACTS, "port-facts-reply 28", "15 PortType 0x30"),
        frame_of(
            None,
            ENABLED,
            "port-enable-reply 20",
            "10 IOCLogInfo 0x01000000",
        ),
        frame_of(None, ADDED, "event-reply 44", "28 AttachedDevHandle 0x000a"),
        frame_of(None, NO_ENTRY, "event-reply 44", "28 Tail 09000001"),
        frame_of(
            None,
            OTHER_EVENT,
            "event-reply 36",
            "1c EventData aa000000000000bb",
        ),
        frame_of(None, ACKED, "event-ack-reply 20", "02 MsgLength 0x05"),
        frame_of(
            None,
            REMOVED,
            "sas-unit-control-reply 20",
            "04 DevHandle 0x000a",
        ),
    ];
    for w in messages {
        let m = decoded(w.kind, w.bytes).map_err(|_| w.heading)?;
        let mut out = [0; 128];
        assert!(rt; message_fits(&m));
        shows(&rt, encode(&m, &mut out), &out, w.bytes);
        let text = list_text(rt.alloc(), &m)?;
        assert!(rt;
            text.as_bytes().starts_with(w.heading.as_bytes()),
            "{}",
            w.heading
        );
        assert!(rt; has_line(text.as_bytes(), w.row), "{}", w.row);
    }
    Ok(())
}

// The first bytes of a frame, one of them changed.
fn changed(bytes: &[u8], count: usize, at: usize, byte: u8) -> [u8; 128] {
    let mut out = [0; 128];
    for (place, given) in out.iter_mut().zip(bytes).take(count) {
        *place = *given;
    }
    if let Some(place) = out.get_mut(at) {
        *place = byte;
    }
    out
}

#[test]
fn the_first_fault_is_answered(rt: HostRuntime) {
    let answers = [
        (
            Some(Kind::ScsiIo),
            WRITE,
            95,
            0x1c,
            0x00,
            MsgFault::Short {
                need: 108,
                have: 95,
            },
        ),
        (
            Some(Kind::ScsiIo),
            WRITE,
            108,
            0x13,
            0x01,
            MsgFault::Field { at: 0x13 },
        ),
        (
            Some(Kind::ScsiIo),
            WRITE,
            108,
            0x3f,
            0x03,
            MsgFault::Field { at: 0x3f },
        ),
        (
            Some(Kind::HighPriority),
            ABORT,
            52,
            0x05,
            0x02,
            MsgFault::Field { at: 0x05 },
        ),
        (
            Some(Kind::HighPriority),
            ABORT,
            52,
            0x2f,
            0x01,
            MsgFault::Field { at: 0x2c },
        ),
        (
            Some(Kind::Handshake),
            INIT,
            72,
            0x00,
            0x08,
            MsgFault::Field { at: 0x00 },
        ),
        (
            Some(Kind::Handshake),
            INIT,
            72,
            0x0d,
            0x03,
            MsgFault::Field { at: 0x0c },
        ),
        (
            Some(Kind::Handshake),
            PORT_FACTS_ASK,
            12,
            0x04,
            0x01,
            MsgFault::Field { at: 0x04 },
        ),
        (
            Some(Kind::Handshake),
            FACTS_ASK,
            11,
            0x03,
            0x03,
            MsgFault::Short { need: 12, have: 11 },
        ),
        (
            Some(Kind::Handshake),
            ABORT,
            52,
            0x05,
            0x01,
            MsgFault::WrongKind {
                byte: 0x01,
                kind: Kind::Handshake,
            },
        ),
        (
            Some(Kind::Default),
            PAGE_READ,
            40,
            0x1f,
            0xd1,
            MsgFault::Field { at: 0x1f },
        ),
        (
            Some(Kind::Default),
            PAGE_READ,
            40,
            0x0d,
            0x01,
            MsgFault::Field { at: 0x0d },
        ),
        (
            Some(Kind::Default),
            PORT_ENABLE,
            12,
            0x06,
            0x01,
            MsgFault::Field { at: 0x06 },
        ),
        (
            Some(Kind::Default),
            NOTIFICATION,
            44,
            0x13,
            0x01,
            MsgFault::Field { at: 0x0c },
        ),
        (
            Some(Kind::Default),
            ACK,
            20,
            0x0e,
            0x01,
            MsgFault::Field { at: 0x0e },
        ),
        (
            Some(Kind::Default),
            REMOVE,
            44,
            0x2b,
            0x01,
            MsgFault::Field { at: 0x24 },
        ),
        (
            Some(Kind::Default),
            REMOVE,
            44,
            0x03,
            0x1a,
            MsgFault::UnknownFunction { byte: 0x1a },
        ),
        (
            None,
            CHECK_CONDITION,
            40,
            0x02,
            0x09,
            MsgFault::Field { at: 0x02 },
        ),
        (
            None,
            CHECK_CONDITION,
            40,
            0x02,
            0x20,
            MsgFault::Short {
                need: 128,
                have: 40,
            },
        ),
        (None, FACTS, 64, 0x02, 0x0f, MsgFault::Field { at: 0x02 }),
        (
            None,
            ACKED,
            19,
            0x03,
            0x08,
            MsgFault::Short { need: 20, have: 19 },
        ),
        (None, REMOVED, 20, 0x02, 0x21, MsgFault::Field { at: 0x02 }),
        (
            None,
            ADDED,
            43,
            0x06,
            0x01,
            MsgFault::Short { need: 44, have: 43 },
        ),
        (None, ADDED, 44, 0x00, 0x1a, MsgFault::Field { at: 0x00 }),
        (None, ADDED, 44, 0x00, 0x02, MsgFault::Field { at: 0x00 }),
        (None, ADDED, 44, 0x24, 0x02, MsgFault::Field { at: 0x24 }),
        (None, ADDED, 44, 0x24, 0xfd, MsgFault::Field { at: 0x24 }),
    ];
    for (kind, bytes, count, at, byte, fault) in answers {
        let frame = changed(bytes, count, at, byte);
        let got = decoded(kind, &frame[..count.min(frame.len())]).err();
        assert_eq!(rt; got, Some(fault), "{at} {byte}");
    }
}

#[test]
fn descriptors_and_pages_are_listed(rt: HostRuntime) -> Result<(), Fail> {
    let post = read_post(b"\x00\x00\x01\x00\x00\x00\x0a\x00").map_err(|_| "post")?;
    let text = list_request_descriptor(rt.alloc(), &post)?;
    assert!(rt; has_line(text.as_bytes(), "request-descriptor 8"));
    assert!(rt; has_line(text.as_bytes(), "06 DevHandle 0x000a"));
    let answer = read_reply(b"\x01\x00\x09\x00\x00\x00\x01\x00").map_err(|_| "answer")?;
    let text = list_reply_descriptor(rt.alloc(), &answer)?;
    assert!(rt; has_line(text.as_bytes(), "reply-descriptor 8"));
    assert!(rt; has_line(text.as_bytes(), "04 ReplyFrameAddress 0x00010000"));
    let page = decode_device_page0(PAGE).map_err(|_| "page")?;
    let text = list_page(rt.alloc(), &page)?;
    assert!(rt; has_line(text.as_bytes(), "sas-device-page-0 56"));
    assert!(rt; has_line(text.as_bytes(), "0c SASAddress 0x5000c50000000001"));
    Ok(())
}
