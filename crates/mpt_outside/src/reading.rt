//! Reading a source to its end.
ghost use Rattle.std.specs.Prelude.{◌≡◌, ◌≢◌, ◌↔◌, ℕ, ◌+◌, ◌<◌, ◌≤◌, List, false, ◌++◌, length, vec_len, IsTrue, IfOk, IfErr, IfSome, OnOk, IsErrOf};
ghost use Rattle.std.specs.Io.KnownBytes.{IsAtEnd};
ghost use Rattle.mpt_outside.specs.Counts.{last_count, Rose, NeverFalls};
ghost use Rattle.mpt_outside.specs.Reading.{Came, StoppedAfter};

use crate::errors::Failed;
use crate::source::Source;
use std::alloc::{AllocError, Global};

/// The most that is asked of a source at a time.
const CHUNK: usize = 65_536;

/// Why a source wasn't read to its end.
#[derive(Clone, Copy, Debug, PartialEq, Eq)]
pub enum ReadFault {
    /// The source failed. Its count of faults rose.
    Failed,
    /// One byte more than the limit came. Where the end lies isn't known. No call failed.
    TooLong,
    /// The allocator had no memory left. No call failed.
    OutOfMemory,
}

impl From<Failed> for ReadFault {
    ghost use Rattle.std.specs.Prelude.{◌≡◌};
    ghost use Rattle.mpt_outside.specs.declared.reading.ReadFault.TheVariants as fault;

    ghost from_gives = { λ _ e. e ≡ fault.Failed };

    fn from(_error: Failed) -> ReadFault {
        ReadFault::Failed
    }
}

impl From<AllocError> for ReadFault {
    ghost use Rattle.std.specs.Prelude.{◌≡◌};
    ghost use Rattle.mpt_outside.specs.declared.reading.ReadFault.TheVariants as fault;

    ghost from_gives = { λ _ e. e ≡ fault.OutOfMemory };

    fn from(_error: AllocError) -> ReadFault {
        ReadFault::OutOfMemory
    }
}

/// Reads a source to its end, which must come after at most `limit` bytes. A source that has more
/// gives `limit` + 1 of them.
pub fn read_all<S: Source>(
    alloc: Global,
    source: &mut S,
    limit: usize,
) -> Result<Vec<u8>, ReadFault>
    ensures all { IfOk result (λ bytes. Came (S.left source.old) (S.left source.new)
        (S.given source.old) (S.given source.new) bytes.items) }
    ensures end { OnOk result (IsAtEnd (S.left source.new)) }
    ensures short { IfOk result (λ bytes. vec_len bytes ≤ limit) }
    ensures stopped { IfErr result (λ e. (bytes : List ℕ) × Came (S.left source.old) (S.left source.new)
        (S.given source.old) (S.given source.new) bytes × StoppedAfter e limit (length bytes)) }

    // Of a source that tells its bytes.
    ensures told { IfOk result (λ bytes. IfSome (S.left source.old) (λ left. bytes.items ≡ left)) }
    ensures too_long { IsErrOf result ReadFault.TooLong
        → IfSome (S.left source.old) (λ left. limit < length left) }

    // Of a source that had given nothing: its end is too far exactly where it gave more than the limit.
    ensures exactly { S.given source.old ≡ 0 → limit < last_count
        → (IsErrOf result ReadFault.TooLong ↔ (limit < S.given source.new)) }

    // Of the source's faults.
    ensures failed { IsErrOf result ReadFault.Failed → Rose (S.faults source.old) (S.faults source.new) }
    ensures steady { OnOk result (S.faults source.new ≡ S.faults source.old) }
    ensures spared { IfErr result (λ e. e ≢ ReadFault.Failed → S.faults source.new ≡ S.faults source.old) }
    ensures never_falls { NeverFalls (S.faults source.old) (S.faults source.new) }
{
    let mut chunk = new_chunk(alloc)?;
    let mut bytes = Vec::new(alloc);
    while read_piece(source, &mut chunk, &mut bytes, limit)? {}
    Ok(bytes)
}

fn new_chunk(alloc: Global) -> Result<Vec<u8>, AllocError>
    ensures { IfOk result (λ chunk. vec_len chunk ≡ CHUNK) }
{
    vec![in alloc; 0u8; CHUNK]
}

// Puts what the source gives next to the end of `bytes`. False at the source's end.
fn read_piece<S: Source>(
    source: &mut S,
    chunk: &mut [u8],
    bytes: &mut Vec<u8>,
    limit: usize,
) -> Result<bool, ReadFault>
    requires space { 0 < length chunk.old }
    requires room { vec_len bytes.old ≤ limit }
    ensures came { OnOk result ((piece : List ℕ) × Came (S.left source.old) (S.left source.new)
        (S.given source.old) (S.given source.new) piece × (bytes.new.items ≡ bytes.old.items ++ piece)) }
    ensures more { IfOk result (λ is_more. IsTrue is_more → vec_len bytes.old < vec_len bytes.new) }
    ensures end { IfOk result (λ is_more. is_more ≡ false → IsAtEnd (S.left source.new)) }
    ensures short { OnOk result (vec_len bytes.new ≤ limit) }
    ensures stopped { IfErr result (λ e. (piece : List ℕ) × Came (S.left source.old) (S.left source.new)
        (S.given source.old) (S.given source.new) piece × StoppedAfter e limit (vec_len bytes.old + length piece)) }
    ensures failed { IsErrOf result ReadFault.Failed → Rose (S.faults source.old) (S.faults source.new) }
    ensures steady { OnOk result (S.faults source.new ≡ S.faults source.old) }
    ensures spared { IfErr result (λ e. e ≢ ReadFault.Failed → S.faults source.new ≡ S.faults source.old) }
    ensures never_falls { NeverFalls (S.faults source.old) (S.faults source.new) }
{
    let room = limit - bytes.len();
    let want = room.saturating_add(1).min(chunk.len());
    let piece = &mut chunk[..want];
    let Ok(count) = source.take(piece) else {
        return Err(ReadFault::Failed);
    };
    if count > room {
        return Err(ReadFault::TooLong);
    }
    bytes.extend_from_slice(&piece[..count])?;
    Ok(count > 0)
}
