//! What may be done to a host, and what it says.
use mpt_rules::Why;
use mpt_trace::{Down, Entry, Input, Up};

/// A move: one call of the host.
#[derive(Drop)]
pub enum HostMove {
    /// It is asked what an input says. An input to the fabric is passed over.
    Input(Input),
    /// It takes an item of the lane up.
    Up(Up),
    /// It takes an item of the lane of a reply queue. Where there is no such queue the move is passed over.
    UpOn(u8, Up),
    /// It puts the next item on the lane down. Where there is none it says nothing.
    PutDown,
}

/// What a host says.
#[derive(Drop)]
pub enum HostSaid {
    /// An item for the controller.
    Down(Down),
    /// An entry.
    Told(Entry),
    /// Why it doesn't take an item.
    Strange(Why),
}
