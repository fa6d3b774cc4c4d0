//! Why bytes are no message.
use crate::function::Kind;
use mpi_layout::Fault;

/// The first refusal of bytes as a message.
#[derive(Clone, Copy, Debug, PartialEq, Eq)]
pub enum MsgFault {
    /// There are `have` bytes, and the message needs `need`.
    Short { need: usize, have: usize },
    /// The row that begins at this offset, in bytes, breaks its rule.
    Field { at: u8 },
    /// The byte at 03 is no function of the profile.
    UnknownFunction { byte: u8 },
    /// A request of this function doesn't travel in the way that was asked for.
    WrongKind { byte: u8, kind: Kind },
}

impl From<Fault> for MsgFault {
    ghost use Rattle.std.specs.Prelude.{◌≡◌};
    ghost use Rattle.mpt_messages.specs.Fault.{message_fault};

    ghost from_gives = { λ fault e. e ≡ message_fault fault };

    fn from(fault: Fault) -> MsgFault {
        match fault {
            Fault::Short { need, have } => MsgFault::Short { need, have },
            Fault::Field { at } => MsgFault::Field { at },
        }
    }
}
