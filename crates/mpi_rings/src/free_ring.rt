//! The reply free ring.
ghost use Rattle.std.specs.Prelude.{◌≡◌, ◌≤◌, ◌<◌, ◌↔◌, [], ◌∷◌, ◌++◌, length, drop, slice_get, Contains, IfOk, IsTrue};

use crate::OutOfMemory;
use circular_buffer::HeapCircularBuffer;
use mpi_names::FREE_RING_ENTRIES;
use std::alloc::Global;
use std::marker::Model;

/// The reply free ring: the reply frames that the controller may use, by their numbers. The host
/// gives frames and the controller takes them, first in, first out. A contract sees the list of the
/// frames, the one that is taken next in front.
///
/// No call but `new` takes memory.
#[derive(Drop)]
pub struct FreeRing {
    frames: HeapCircularBuffer<u8>,
}

impl Model for FreeRing {
    ghost use Rattle.std.specs.Prelude.{◌≡◌, ◌≤◌, List, ℕ, length};
    ghost use Rattle.mpi_names.specs.declared.memory.TheConstants.{FREE_RING_ENTRIES};

    ghost Value = { List ℕ };

    ghost view = { λ r. r.frames.items };

    ghost invariant = { λ r. (r.frames.capacity ≡ FREE_RING_ENTRIES)
        × (length r.frames.items ≤ FREE_RING_ENTRIES) };
}

impl FreeRing {
    /// An empty ring with room for 80 frames, or OutOfMemory.
    pub fn new(alloc: Global) -> Result<FreeRing, OutOfMemory>
        ensures { IfOk result (λ ring. ring ≡ []) }
    {
        let frames = HeapCircularBuffer::with_capacity(alloc, FREE_RING_ENTRIES)?;
        Ok(FreeRing { frames })
    }

    /// Whether the ring holds 80 frames, so that none may be given.
    pub fn is_full(&self) -> bool
        ensures full { IsTrue result ↔ (length self.now ≡ FREE_RING_ENTRIES) }
        ensures bound { length self.now ≤ FREE_RING_ENTRIES }
    {
        self.frames.is_full()
    }

    /// Gives a frame, behind all others. The ring isn't full.
    pub fn give(&mut self, frame: u8)
        requires { length self.old < FREE_RING_ENTRIES }
        ensures { self.new ≡ self.old ++ frame ∷ [] }
    {
        self.frames.push_back(frame);
    }

    /// The frame that is taken next, which stays. None exactly where the ring is empty.
    pub fn front(&self) -> Option<u8>
        ensures { result ≡ slice_get self.now 0 }
    {
        self.frames.front().copied()
    }

    /// Takes the frame that was given first. None exactly where the ring is empty.
    pub fn take(&mut self) -> Option<u8>
        ensures frame { result ≡ slice_get self.old 0 }
        ensures rest { self.new ≡ drop 1 self.old }
    {
        self.frames.pop_front()
    }

    /// Whether the ring holds the frame.
    pub fn has(&self, frame: u8) -> bool
        ensures { IsTrue result ↔ Contains self.now frame }
    {
        self.frames.iter().any(|given| *given == frame)
    }

    /// Empties the ring.
    pub fn clear(&mut self)
        ensures { self.new ≡ [] }
    {
        self.frames.clear();
    }
}
