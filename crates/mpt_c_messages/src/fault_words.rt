//! The first fault of bytes, as C reads it.
ghost use Rattle.std.specs.Prelude.{◌≡◌};
ghost use Rattle.mpt_c_messages.specs.FaultWords.{fault_words};

use mpt_messages::MsgFault;
use std::mem::size_of;

/// The first fault of bytes (mpt.h, `mpt_fault`).
#[repr(C)]
#[derive(Clone, Copy, Debug, PartialEq, Eq)]
pub struct FaultWords {
    /// Which fault: 1 too short, 2 a field, 3 an unknown function, 4 another kind's function.
    pub kind: u32,
    /// The offset in bytes of the field that breaks its rule; 3, Function's, for a function.
    pub at: u32,
    /// How many bytes are needed, where they are too short.
    pub need: u64,
    /// How many bytes there are, where they are too short; the byte that names the function, for a
    /// function.
    pub have: u64,
}

// C has the same layout: mpt.h asserts it too.
const _: () = prove!(size_of::<FaultWords>() == 24);

impl FaultWords {
    /// The words of this fault.
    pub fn of(fault: MsgFault) -> FaultWords
        ensures { result ≡ fault_words fault }
    {
        match fault {
            MsgFault::Short { need, have } => FaultWords {
                kind: 1,
                at: 0,
                need: need as u64,
                have: have as u64,
            },
            MsgFault::Field { at } => FaultWords {
                kind: 2,
                at: u32::from(at),
                need: 0,
                have: 0,
            },
            MsgFault::UnknownFunction { byte } => FaultWords {
                kind: 3,
                at: 3,
                need: 0,
                have: u64::from(byte),
            },
            MsgFault::WrongKind { byte, .. } => FaultWords {
                kind: 4,
                at: 3,
                need: 0,
                have: u64::from(byte),
            },
        }
    }
}
