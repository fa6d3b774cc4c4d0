//! Why bytes spell no scatter list.

/// The first fault of the bytes of a scatter list. Segment 0 is the first area, segment 1 the first
/// frame; elements are counted from 0 in each.
#[derive(Clone, Copy, Debug, PartialEq, Eq)]
pub enum SglFault {
    /// There was no memory left. It says nothing of the bytes.
    OutOfMemory,
    /// The offset is neither 00 nor 1b.
    Offset(u8),
    /// The flags aren't those of the element at this place in the list's direction, which the flags
    /// of the very first element give.
    Flags { segment: u32, element: u8 },
    /// A piece's length is 0, or a chain element's length and NextChainOffset are no frame's.
    Length { segment: u32, element: u8 },
    /// The empty list's address isn't all ones, or a chain element's isn't the next frame's.
    Address { segment: u32, element: u8 },
    /// The segment has a chain element, and no frame is left.
    Missing { segment: u32 },
    /// A byte behind the segment's elements isn't zero.
    Stray { segment: u32 },
    /// The list uses so many frames, and more were given.
    Extra { kept: u32, given: u32 },
    /// There are more than 256 pieces.
    Many,
}
