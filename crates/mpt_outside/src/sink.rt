//! Where bytes go.
ghost use Rattle.std.specs.Prelude.{◌≡◌, ℕ, ◌<◌, List, length, IfOk, OnOk, OnErr};
ghost use Rattle.std.specs.declared.option.Option.{Option};
ghost use Rattle.std.specs.Io.{WritesAtMost};
ghost use Rattle.std.specs.Io.KnownBytes.{WriteAppends};
ghost use Rattle.mpt_outside.specs.Counts.{Rose, NeverFalls};

use crate::errors::Failed;

/// Takes bytes.
pub trait Sink {
    // The bytes that it took, where the sink tells them.
    ghost taken: { Self → Option (List ℕ) };

    // How often it failed. The count stands still at 2^64 - 1.
    ghost faults: { Self → ℕ };

    /// Takes the first `k` bytes of `piece` and no others, for an `Ok(k)`, and at least one where the
    /// piece isn't empty. `Failed` takes none, and comes only where the count of faults rose.
    fn put(&mut self, piece: &[u8]) -> Result<usize, Failed>
        ensures within { WritesAtMost result piece.now }
        ensures some { IfOk result (λ k. 0 < length piece.now → 0 < k) }

        // `Ok(k)` takes the first k bytes; `Failed` leaves the bytes taken as they were.
        ensures bytes { WriteAppends (taken self.old) (taken self.new) result piece.now }

        ensures failed { OnErr result (Rose (faults self.old) (faults self.new)) }
        ensures steady { OnOk result (faults self.new ≡ faults self.old) }
        ensures never_falls { NeverFalls (faults self.old) (faults self.new) };
}
