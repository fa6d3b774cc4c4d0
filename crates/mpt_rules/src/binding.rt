//! What a device handle stands for at the controller.
use mpt_trace::Address;

/// What a handle from 0x0009 to 0x0048 stands for.
#[derive(Clone, Copy)]
pub enum Binding {
    /// Nothing.
    Unbound,
    /// The disk of an address, since its plug of this number, at a phy of an expander.
    Present {
        address: Address,
        plug: u32,
        expander: u8,
        phy: u8,
    },
    /// A disk that was unplugged. The handle isn't given again until it is removed.
    Gone {
        address: Address,
    },
}

/// A plugged disk for which no handle was unbound.
#[derive(Clone, Copy)]
pub struct Waiting {
    /// The disk's SAS address.
    pub address: Address,
    /// The number of its plug, from 1.
    pub plug: u32,
    /// The expander where it is plugged.
    pub expander: u8,
    /// The expander's phy.
    pub phy: u8,
}
