ghost use Rattle.std.specs.Prelude.{◌≤◌, length};
ghost use Rattle.mpi_doorbell.specs.Bytes.{IsMessage, IsReply};
ghost use Rattle.mpi_doorbell.specs.HostSteps.{Expects};

use super::*;

/// IOC Facts (mpi2_ioc.h, MPI2_IOC_FACTS_REQUEST).
const IOC_FACTS: [u8; 12] = [0, 0, 0, 3, 0, 0, 0, 0, 0, 0, 0, 0];

/// A reply of 20 bytes: its MsgLength is 5 dwords.
const REPLY: [u8; 20] = [
    1, 2, 5, 3, 4, 5, 6, 7, 8, 9, 10, 11, 12, 13, 0, 0, 16, 17, 18, 19,
];

/// Plays the host against the adapter, which answers each message by the reply and is linked at once
/// after a reset, and gives the host's last step.
fn play(mut host: DoorHost, ioc: &mut DoorIoc, reply: &[u8]) -> DoorStep
    requires begins { Expects host.stage None }
    requires replies { IsReply reply.now }
{
    let mut value = None;
    for _ in 0..1000 {
        match host.next(value) {
            DoorStep::Read { reg } => value = Some(ioc.read(reg)),
            DoorStep::Write {
                reg,
                value: written,
            } => {
                value = None;
                match ioc.write(reg, written) {
                    Effect::None => {}
                    Effect::Asked { .. } => ioc.answer(reply),
                    Effect::UnitReset | Effect::AdapterReset => {
                        ioc.restart();
                        ioc.linked();
                    }
                    Effect::Fault(code) => ioc.set_state(IocState::Fault(code)),
                }
            }
            end => return end,
        }
    }
    DoorStep::Refused { step: 0, value: 0 }
}

#[test]
fn keys_unlock_the_diagnostic_register(rt: HostRuntime) {
    let mut ioc = DoorIoc::new();
    for key in [0xF, 4, 0xB, 2, 7, 0xC, 0xD] {
        ioc.write(0x04, key);
    }
    assert_eq!(rt; ioc.read(0x08), 0);
    assert_eq!(rt; ioc.write(0x08, 0x04), Effect::None);
    for key in [0, 0xF, 4, 0xB, 2, 7, 0xD] {
        ioc.write(0x04, key);
    }
    assert_eq!(rt; ioc.read(0x08), 0x80);
    assert_eq!(rt; ioc.write(0x08, 0x84), Effect::AdapterReset);
    assert_eq!(rt; ioc.read(0x08), 0xA4);
    laws::reset_needs_the_keys();
}

/// The host's first dword of a handshake.
fn opening(message: &[u8]) -> DoorStep
    requires { IsMessage message.now }
{
    let mut host = DoorHost::handshake(message);
    host.next(None);
    host.next(Some(0x1000_0000));
    host.next(Some(0))
}

#[test]
fn the_host_writes_its_words(rt: HostRuntime) {
    assert_eq!(rt;
        opening(&IOC_FACTS),
        DoorStep::Write {
            reg: 0x00,
            value: 0x4203_0000
        }
    );
    assert_eq!(rt;
        opening(&[0; 72]),
        DoorStep::Write {
            reg: 0x00,
            value: 0x4212_0000
        }
    );
    let reset = DoorHost::unit().next(None);
    assert_eq!(rt;
        reset,
        DoorStep::Write {
            reg: 0x00,
            value: 0x4000_0000
        }
    );
    laws::handshakes_hand_over();
}

#[test]
fn handshakes_are_played_through(rt: HostRuntime) {
    let mut ioc = DoorIoc::new();
    assert_eq!(rt; ioc.read(0x00), 0x1000_0000);
    let done = play(DoorHost::handshake(&IOC_FACTS), &mut ioc, &REPLY);
    assert_eq!(rt;
        done,
        DoorStep::Done {
            length: 20,
            bytes: extended(&REPLY)
        }
    );
    assert_eq!(rt; (ioc.read(0x00), ioc.read(0x30)), (0x1000_0000, 0));

    // IOC Init by WhoInit 4, which is refused, and then isn't.
    let mut init = [0; 72];
    init[0] = 4;
    init[3] = 2;
    let mut refusal = REPLY;
    refusal[14] = 7;
    play(DoorHost::handshake(&init), &mut ioc, &refusal);
    assert_eq!(rt; ioc.read(0x00), 0x1000_0000);
    play(DoorHost::handshake(&init), &mut ioc, &REPLY);
    ioc.set_state(IocState::Operational);
    assert_eq!(rt; ioc.read(0x00), 0x2400_0000);

    // A MsgLength of 4 is refused as word 1 is read, and the Doorbell stays used.
    let mut short = REPLY;
    short[2] = 4;
    let refused = play(DoorHost::handshake(&IOC_FACTS), &mut ioc, &short);
    assert_eq!(rt;
        refused,
        DoorStep::Refused {
            step: 6,
            value: 0x2C00_0304
        }
    );
    let used = play(DoorHost::handshake(&IOC_FACTS), &mut ioc, &REPLY);
    assert_eq!(rt;
        used,
        DoorStep::Refused {
            step: 1,
            value: 0x2C00_0304
        }
    );
    laws::messages_are_their_dwords();
    laws::ends_meet();
}

#[test]
fn resets_and_faults(rt: HostRuntime) {
    let mut ioc = DoorIoc::new();
    let ready = DoorStep::Done {
        length: 0,
        bytes: [0; 128],
    };
    assert_eq!(rt; play(DoorHost::diag(), &mut ioc, &REPLY), ready);
    assert_eq!(rt; ioc.read(0x08), 0x20);
    assert_eq!(rt; play(DoorHost::unit(), &mut ioc, &REPLY), ready);
    let seen = play(DoorHost::look(), &mut ioc, &REPLY);
    assert_eq!(rt;
        seen,
        DoorStep::Done {
            length: 4,
            bytes: extended(&[0, 0, 0, 0x10])
        }
    );

    // An adapter that is linked while HOLD_IOC_RESET is set stays in RESET until it is cleared.
    for key in [0xF, 4, 0xB, 2, 7, 0xD] {
        ioc.write(0x04, key);
    }
    assert_eq!(rt; ioc.write(0x08, 0x86), Effect::AdapterReset);
    ioc.restart();
    ioc.linked();
    assert_eq!(rt; (ioc.read(0x00), ioc.read(0x08)), (0, 0xA2));
    ioc.write(0x08, 0x80);
    assert_eq!(rt; (ioc.read(0x00), ioc.read(0x08)), (0x1000_0000, 0xA0));

    for (written, code) in [(0x4200_0000, 1), (0x4221_0000, 1), (0x4300_0000, 2)] {
        assert_eq!(rt; ioc.write(0x00, written), Effect::Fault(code));
    }
    ioc.set_state(IocState::Fault(2));
    ioc.write(0x34, 5);
    assert_eq!(rt; (ioc.read(0x00), ioc.read(0x34)), (0x4000_0002, 0));
    let stopped = play(DoorHost::unit(), &mut ioc, &REPLY);
    assert_eq!(rt;
        stopped,
        DoorStep::Refused {
            step: 31,
            value: 0x4000_0002
        }
    );
}

/// These bytes, and zeros after them.
fn extended(start: &[u8]) -> [u8; 128]
    requires { length start.now ≤ 128 }
{
    let mut bytes = [0; 128];
    bytes[..start.len()].copy_from_slice(start);
    bytes
}
