//! Where bytes come from.
ghost use Rattle.std.specs.Prelude.{◌≡◌, ℕ, List, OnOk, OnErr, MatchResult};
ghost use Rattle.std.specs.declared.option.Option.{Option};
ghost use Rattle.std.specs.Io.{ReadsAtMost};
ghost use Rattle.std.specs.Io.KnownBytes.{ReadConsumes};
ghost use Rattle.mpt_outside.specs.Counts.{counted, Rose, NeverFalls};

use crate::errors::Failed;

/// Gives bytes, until its end.
pub trait Source {
    // The bytes that are left, where the source tells them.
    ghost left: { Self → Option (List ℕ) };

    // How many bytes it gave. The count stands still at 2^64 - 1.
    ghost given: { Self → ℕ };

    // How often it failed. The count stands still at 2^64 - 1.
    ghost faults: { Self → ℕ };

    /// Writes the next `k` bytes to the front of `buffer`, for an `Ok(k)`. `Ok(0)` for a buffer that
    /// isn't empty is the end. `Failed` gives nothing, and comes only where the count of faults rose.
    fn take(&mut self, buffer: &mut [u8]) -> Result<usize, Failed>
        ensures within { ReadsAtMost result buffer.new }

        // `Ok(k)` gives the next k bytes, none only at the end or with no room; `Failed` gives none.
        ensures bytes { ReadConsumes (left self.old) (left self.new) result buffer.new }
        ensures count { MatchResult result
            (λ k. given self.new ≡ counted (given self.old) k)
            (λ _. given self.new ≡ given self.old) }

        ensures failed { OnErr result (Rose (faults self.old) (faults self.new)) }
        ensures steady { OnOk result (faults self.new ≡ faults self.old) }
        ensures never_falls { NeverFalls (faults self.old) (faults self.new) };
}
