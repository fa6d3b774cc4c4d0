//! What the host does next at the doorbell.

/// The next step of the host.
#[derive(Clone, Copy, Debug, PartialEq, Eq)]
pub enum DoorStep {
    /// Write this value to this register.
    Write { reg: u16, value: u32 },
    /// Read this register, and hand over its value.
    Read { reg: u16 },
    /// It is done, with the first `length` bytes, from 0 to 128; the others are 0.
    Done { length: u8, bytes: [u8; 128] },
    /// The value that was read can't be gone on with, at this step of the host's table.
    Refused { step: u8, value: u32 },
}
