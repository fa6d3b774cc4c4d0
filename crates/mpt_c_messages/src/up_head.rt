//! What stands before an item that comes up.
use std::mem::size_of;

/// What stands before the data of an item that the controller puts for the host (mpt.h, `mpt_up_head`).
#[repr(C)]
#[derive(Clone, Copy, Debug, PartialEq, Eq)]
pub struct UpHead {
    /// The little-endian number of the reply descriptor's 8 bytes, of a reply.
    pub descriptor: u64,
    /// Which item: 1 a register's value, 2 a reply, 3 the mark of a reset, 4 that the controller is quiet.
    pub kind: u32,
    /// The register's value, or the generation of the mark.
    pub value: u32,
    /// Whether the reply has a frame: 1, or 0.
    pub has_frame: u32,
    /// How many bytes of data the controller moved.
    pub page_length: u32,
    /// How many bytes of sense data it moved.
    pub sense_length: u32,
}

// C has the same layout: mpt.h asserts it too.
const _: () = prove!(size_of::<UpHead>() == 32);
