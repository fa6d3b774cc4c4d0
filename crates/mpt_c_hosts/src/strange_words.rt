//! Why an item is strange, as C reads it.
ghost use Rattle.std.specs.Prelude.{◌≡◌};
ghost use Rattle.mpt_c_hosts.specs.StrangeWords.{no_fault, strange_with, strange_words};

use host_core::Why;
use mpt_c_messages::FaultWords;
use std::mem::size_of;

/// Why an item that came up is strange (mpt.h, `mpt_strange`).
#[repr(C)]
#[derive(Clone, Copy, Debug, PartialEq, Eq)]
pub struct StrangeWords {
    /// The fault of the reply frame, or of the bytes of a handshake's reply.
    pub fault: FaultWords,
    /// Which cause: 1 the wrong queue, 2 a bad mark, 3 no read, 4 the doorbell's steps refuse the value, 5 a bad
    /// descriptor, 6 a frame that wasn't given back, 7 a bad frame, 8 an identifier that isn't open, 9 a reply to
    /// something else, 10 a bad IOCStatus, 11 a handle that isn't absent.
    pub why: u32,
    /// Which step of the doorbell refuses the value.
    pub step: u32,
    /// What is wrong: the queue, the generation, the value, the address, the identifier, the IOCStatus or the handle.
    pub value: u32,
}

// C has the same layout: mpt.h asserts it too.
const _: () = prove!(size_of::<StrangeWords>() == 40);

impl StrangeWords {
    /// The words of this cause.
    pub fn of(why: Why) -> StrangeWords
        ensures { result ≡ strange_words why }
    {
        match why {
            Why::WrongQueue(queue) => StrangeWords::with_value(1, u32::from(queue)),
            Why::BadMark(generation) => StrangeWords::with_value(2, generation),
            Why::NoRead => StrangeWords::with_value(3, 0),
            Why::DoorRefused { step, value } => StrangeWords {
                fault: no_fault(),
                why: 4,
                step: u32::from(step),
                value,
            },
            Why::BadDescriptor => StrangeWords::with_value(5, 0),
            Why::NotReturned(address) => StrangeWords::with_value(6, address),
            Why::BadFrame(fault) => StrangeWords {
                fault: FaultWords::of(fault),
                why: 7,
                step: 0,
                value: 0,
            },
            Why::NotOpen(smid) => StrangeWords::with_value(8, u32::from(smid)),
            Why::BadAnswer => StrangeWords::with_value(9, 0),
            Why::BadStatus(status) => StrangeWords::with_value(10, u32::from(status)),
            Why::NotAbsent(handle) => StrangeWords::with_value(11, u32::from(handle)),
        }
    }

    // A cause with a number that goes with it.
    fn with_value(why: u32, value: u32) -> StrangeWords
        ensures { result ≡ strange_with why value }
    {
        StrangeWords {
            fault: no_fault(),
            why,
            step: 0,
            value,
        }
    }
}

// The words of no fault.
fn no_fault() -> FaultWords
    ensures { result ≡ no_fault }
{
    FaultWords {
        kind: 0,
        at: 0,
        need: 0,
        have: 0,
    }
}
