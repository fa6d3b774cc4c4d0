//! Bytes in memory that are given a piece at a time.
ghost use Rattle.std.specs.Prelude.{◌≡◌, ℕ, ◌+◌, ◌-◌, ◌<◌, ◌≤◌, ◌++◌, [], length, take, drop};
ghost use Rattle.mpt_outside.specs.Counts.{counted};
ghost use Rattle.mpt_outside.specs.Memory.{moved};

/// Copies the piece that stands at `at` to the front of a buffer, and says how long it was.
#[tactic(auto, using(crate::proofs::PieceLemmas::piece_next, crate::proofs::PieceLemmas::piece_end), unfolding(crate::specs::Counts::counted))]
pub(crate) fn give_piece(bytes: &[u8], at: usize, piece: usize, buffer: &mut [u8]) -> usize
    requires inside { at ≤ length bytes.now }
    requires some { 0 < piece }
    ensures count { result ≡ moved piece (length bytes.now - at) (length buffer.old) }
    ensures counts { at + result ≡ counted at result }
    ensures within { at + result ≤ length bytes.now }
    ensures next { drop at bytes.now ≡ take result buffer.new ++ drop (at + result) bytes.now }
    ensures behind { drop result buffer.new ≡ drop result buffer.old }
    ensures end { result ≡ 0 → 0 < length buffer.new → drop (at + result) bytes.now ≡ [] }
{
    let count = piece.min(bytes.len() - at).min(buffer.len());
    buffer[..count].copy_from_slice(&bytes[at..at + count]);
    count
}
