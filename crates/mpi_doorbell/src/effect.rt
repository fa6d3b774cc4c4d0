//! What a write to a register asks of the adapter.

/// What the adapter has to do after a write to one of the doorbell's registers.
#[derive(Clone, Copy, Debug, PartialEq, Eq)]
pub enum Effect {
    /// Nothing.
    None,
    /// A handshake's message is whole and waits for its answer. It is the first `length` bytes, from 4
    /// to 128; the others are 0.
    Asked { length: u8, bytes: [u8; 128] },
    /// The doorbell's function message unit reset was written: the adapter begins a reset.
    UnitReset,
    /// RESET_ADAPTER was written: the adapter begins a reset.
    AdapterReset,
    /// The adapter has to stop with this code: 1 for a handshake of 0 or of more than 32 dwords, 2 for
    /// a function that the doorbell doesn't have.
    Fault(u16),
}
