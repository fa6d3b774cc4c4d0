//! The reply frames that the controller may use.
ghost use Rattle.std.specs.Prelude.{◌≡◌, ◌<◌, ◌++◌, ◌∷◌, ◌==◌, [], IfOk, drop, false, slice_get};
ghost use Rattle.std.specs.List.{list_any};
ghost use Rattle.ioc_core.specs.FreeFrames.{is_frame};

use mpi_rings::FreeRing;
use mpt_rules::OutOfMemory;
use std::alloc::Global;
use std::marker::Model;

/// The reply frames that the controller may use, by their numbers from 0 to 63, the next first. None is there twice, so
/// the ring of 80 never overflows. No call but `new` takes memory.
#[derive(Drop)]
pub struct FreeFrames {
    ring: FreeRing,
}

impl Model for FreeFrames {
    ghost use Rattle.std.specs.Prelude.{List, ℕ};
    ghost use Rattle.ioc_core.specs.FreeFrames.{AreFreeFrames};

    ghost Value = { List ℕ };

    ghost view = { λ f. f.ring };

    ghost invariant = { λ f. AreFreeFrames f.ring };
}

impl FreeFrames {
    /// None, with room for all; or OutOfMemory.
    pub fn new(alloc: Global) -> Result<FreeFrames, OutOfMemory>
        ensures { IfOk result (λ frames. frames ≡ []) }
    {
        let ring = FreeRing::new(alloc)?;
        Ok(FreeFrames { ring })
    }

    /// Whether the frame is there.
    pub fn has(&self, frame: u8) -> bool
        ensures { result ≡ list_any (λ f. f == frame) self.now }
    {
        self.ring.has(frame)
    }

    /// Gives a frame, behind the others. It is one of the 64, and isn't there.
    pub fn give(&mut self, frame: u8)
        requires known { frame < 64 }
        requires absent { list_any (λ f. f == frame) self.old ≡ false }
        ensures { self.new ≡ self.old ++ frame ∷ [] }
    {
        self.ring.give(frame);
    }

    /// The next frame, which stays. None exactly where there is none.
    pub fn front(&self) -> Option<u8>
        ensures { result ≡ slice_get self.now 0 }
    {
        self.ring.front()
    }

    /// Takes the next frame. None exactly where there is none.
    pub fn take(&mut self) -> Option<u8>
        ensures frame { result ≡ slice_get self.old 0 }
        ensures rest { self.new ≡ drop 1 self.old }
    {
        self.ring.take()
    }

    /// Takes all away.
    pub fn clear(&mut self)
        ensures { self.new ≡ [] }
    {
        self.ring.clear();
    }
}
