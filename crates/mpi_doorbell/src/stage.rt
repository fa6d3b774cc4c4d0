//! Where the host stands at the doorbell.
ghost use Rattle.std.specs.Prelude.{◌≡◌};
ghost use Rattle.mpi_doorbell.specs.HostDoor.{register_of, state_step};

use crate::registers::{DOORBELL, HOST_DIAGNOSTIC, HOST_INTERRUPT_STATUS};

/// Which reset the host waits for.
#[derive(Clone, Copy)]
pub enum ResetKind {
    /// The diagnostic reset, by HostDiagnostic.
    Diagnostic,
    /// The message unit reset, by the Doorbell.
    MessageUnit,
}

impl ResetKind {
    /// The step of the host's table that waits for READY.
    pub fn state_step(self) -> u8
        ensures { result ≡ state_step self }
    {
        match self {
            ResetKind::Diagnostic => 25,
            ResetKind::MessageUnit => 31,
        }
    }
}

/// What the host looks for in a register.
#[derive(Clone, Copy)]
pub enum Reading {
    /// Step 1: is the Doorbell used?
    Used,
    /// Step 2: is an interrupt left over?
    LeftOver,
    /// Step 4: did the adapter open the handshake?
    Opened,
    /// Steps 4 and 5: did the adapter take what was written?
    Taken,
    /// Steps 6 to 8: is the next word there, or the handshake's end?
    News,
    /// Steps 6 to 8: the next word, or whether the Doorbell is still used after the last one.
    Word,
    /// Step 21: is HostDiagnostic unlocked?
    Unlocked,
    /// Step 23: is the adapter reset over?
    ResetOver,
    /// Steps 25 and 31: is the adapter ready?
    State(ResetKind),
    /// Step 30: did the adapter take the message unit reset?
    UnitReset,
    /// Step 40: what the Doorbell says.
    Doorbell,
}

impl Reading {
    /// The register that it is looked for in.
    pub fn register(self) -> u16
        ensures { result ≡ register_of self }
    {
        match self {
            Reading::Used | Reading::Word | Reading::State(_) | Reading::Doorbell => DOORBELL,
            Reading::LeftOver
            | Reading::Opened
            | Reading::Taken
            | Reading::News
            | Reading::UnitReset => HOST_INTERRUPT_STATUS,
            Reading::Unlocked | Reading::ResetOver => HOST_DIAGNOSTIC,
        }
    }
}

/// What the host does next.
#[derive(Clone, Copy)]
pub enum Stage {
    /// It reads a register for this.
    Reads(Reading),
    /// It waits for the value of the register that it read for this.
    Awaits(Reading),
    /// Step 3: it writes the handshake's function and count of dwords.
    Opens,
    /// Step 20: it writes the key of this place, from 0.
    WritesKey(u8),
    /// Step 24: it locks HostDiagnostic.
    Locks,
    /// Step 30: it writes the message unit reset.
    ResetsUnit,
    /// Step 8: it is done with the reply.
    Finishes,
    /// It was done or refused.
    Ended,
}
