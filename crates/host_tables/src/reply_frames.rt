//! The host's reply frames.
ghost use Rattle.std.specs.Prelude.{◌≡◌, ◌<◌, ◌+◌, ◌%◌, replicate, slice_index_or, slice_set};
ghost use Rattle.mpt_wire.specs.Messages.Fields.{reply_frame_address};
ghost use Rattle.mpt_rules.specs.Host.Returns.{frame_of as frame_at, is_away, is_frame_address as is_one};
ghost use Rattle.mpt_rules.specs.World.PlaceCounts.{is_held_frame};

use mpt_rules::HostFrame;
use std::marker::Model;

/// How many reply frames there are.
pub const REPLY_FRAMES: usize = 64;

// Where the host's memory has the first; each has 128 bytes.
const FIRST_ADDRESS: u32 = 0x0001_0000;

const FRAME_BYTES: u32 = 128;

// The entries of the reply free ring.
const RING_ENTRIES: u16 = 80;

/// Where each of the 64 reply frames is, and how many were returned, modulo the entries of the reply
/// free ring. No call takes memory.
#[derive(Drop)]
pub struct ReplyFrames {
    frames: [HostFrame; REPLY_FRAMES],
    returned: u16,
}

impl Model for ReplyFrames {
    ghost use Rattle.std.specs.Prelude.{◌<◌};
    ghost use Rattle.host_tables.specs.Frames.{Frames};

    ghost Value = { Frames };

    ghost view = { λ f. record { frames = f.frames; returned = f.returned } };

    ghost invariant = { λ f. f.returned < 80 };
}

impl ReplyFrames {
    /// The host has all frames.
    pub fn new() -> ReplyFrames
        ensures { result ≡ record { frames = replicate 64 HostFrame.Held; returned = 0 } }
    {
        ReplyFrames {
            frames: [HostFrame::Held; REPLY_FRAMES],
            returned: 0,
        }
    }

    /// Where a frame is.
    pub fn at(&self, frame: u32) -> HostFrame
        ensures { result ≡ slice_index_or self.now.frames frame HostFrame.Held }
    {
        match self.frames.get(frame as usize) {
            Some(place) => *place,
            None => HostFrame::Held,
        }
    }

    /// Whether the host has the frame. Of what is no frame it has none.
    pub fn is_held(&self, frame: u32) -> bool
        ensures { result ≡ is_held_frame (slice_index_or self.now.frames frame HostFrame.Away) }
    {
        match self.frames.get(frame as usize) {
            Some(place) => is_held(*place),
            None => false,
        }
    }

    /// Whether the controller has the frame.
    pub fn is_away(&self, frame: u32) -> bool
        ensures { result ≡ is_away (slice_index_or self.now.frames frame HostFrame.Held) }
    {
        match self.at(frame) {
            HostFrame::Away => true,
            HostFrame::Held | HostFrame::Out => false,
        }
    }

    /// The frame is where this says. There is nothing to do for what is no frame.
    pub fn set(&mut self, frame: u32, place: HostFrame)
        ensures { self.new ≡ record self.old { frames = slice_set self.old.frames frame place } }
    {
        let index = frame as usize;
        if index < REPLY_FRAMES {
            self.frames[index] = place;
        }
    }

    /// One more frame was returned: the index of the reply free ring after it.
    pub fn count_return(&mut self) -> u16
        ensures value { result ≡ (self.old.returned + 1) % 80 }
        ensures counted { self.new ≡ record self.old { returned = result } }
    {
        self.returned = (self.returned + 1) % RING_ENTRIES;
        self.returned
    }

    /// The host has all frames. How many were returned stays.
    pub fn hold_all(&mut self)
        ensures { self.new ≡ record self.old { frames = replicate 64 HostFrame.Held } }
    {
        self.frames = [HostFrame::Held; REPLY_FRAMES];
    }
}

// Whether the host has a frame that is there.
fn is_held(place: HostFrame) -> bool
    ensures { result ≡ is_held_frame place }
{
    matches!(place, HostFrame::Held)
}

// The address that a frame of any number would have.
pub(crate) fn address_of(frame: u8) -> u32
    ensures { result ≡ reply_frame_address frame }
{
    FIRST_ADDRESS + FRAME_BYTES * u32::from(frame)
}

/// The address of a frame, from 0 to 63.
pub fn frame_address(frame: u32) -> u32
    requires { frame < 64 }
    ensures { result ≡ reply_frame_address frame }
{
    FIRST_ADDRESS + FRAME_BYTES * frame
}

/// The number of the frame at an address, where there is one.
pub fn frame_of(address: u32) -> u32
    ensures { result ≡ frame_at address }
{
    address.saturating_sub(FIRST_ADDRESS) / FRAME_BYTES
}

/// Whether a frame begins at the address.
pub fn is_frame_address(address: u32) -> bool
    ensures { result ≡ is_one address }
{
    let frame = frame_of(address);
    frame < 64 && frame_address(frame) == address
}
