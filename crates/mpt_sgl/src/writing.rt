//! How a scatter list is written.
ghost use Rattle.std.specs.Prelude.{◌≡◌, ◌≤◌, ◌<◌, ◌+◌, ◌*◌, ◌==◌, IsTrue, IfOk, length, slice_get, if◌then◌else◌};
ghost use Rattle.std.specs.List.{list_all};
ghost use Rattle.mpt_sgl.specs.declared.chained.Chained.{Chained};
ghost use Rattle.mpt_sgl.specs.Held.{FramesHold};
ghost use Rattle.mpt_sgl.specs.Pieces.{IsScatterList, frame_count, is_piece};
ghost use Rattle.mpt_sgl.specs.Spelling.{IsSized, Spells, addresses, are_sized};

use crate::OutOfMemory;
use crate::area::write_area;
use crate::chained::{ChainFrame, Chained, Frames};
use crate::element::Element;
use crate::list::Piece;
use std::alloc::Global;

/// How many chain frames a list with so many pieces needs: none for two, one for up to eleven, and
/// one more for each further nine.
pub fn frames_needed(n: usize) -> usize
    requires { n ≤ 256 }
    ensures { result ≡ frame_count n }
{
    if n < 3 { 0 } else { (n - 3) / 9 + 1 }
}

/// Writes the list, with its frames at these addresses, as many as `frames_needed` says: the only
/// bytes that spell it so. The pieces and the direction are a scatter list's.
///
/// # Errors
/// Only where memory is wanting.
pub fn write_list(
    alloc: Global,
    pieces: &[Piece],
    to_device: bool,
    chains: &[u64],
) -> Result<Chained, OutOfMemory>
    requires list { IsScatterList to_device pieces.now }
    requires frames { length chains.now ≡ frame_count (length pieces.now) }
    ensures spelled { IfOk result (λ c. Spells (record { to_device = to_device; pieces = pieces.now }) c) }
    ensures addresses { IfOk result (λ c. addresses c.frames ≡ chains.now) }
    ensures only { (c : Chained) → IsSized c → addresses c.frames ≡ chains.now → Spells (record { to_device = to_device; pieces = pieces.now }) c
        → IfOk result (λ written. written ≡ c) }
{
    let mut first = [0; 32];
    if pieces.is_empty() {
        Element::EMPTY.write(&mut first);
        return Ok(Chained {
            offset: 0x00,
            first,
            frames: Frames::new(Vec::new(alloc)),
        });
    }
    write_area(&mut first, pieces, 1, to_device, address_at(chains, 0));
    let frames = write_frames(alloc, &pieces[1..], to_device, chains)?;
    Ok(Chained {
        offset: chain_offset(chains),
        first,
        frames: Frames::new(frames),
    })
}

// The frames at these addresses, with the pieces that found no room in the first area.
fn write_frames(
    alloc: Global,
    pieces: &[Piece],
    to_device: bool,
    chains: &[u64],
) -> Result<Vec<ChainFrame>, OutOfMemory>
    requires sound { IsTrue (list_all is_piece pieces.now) }
    requires few { length pieces.now ≤ 256 }
    requires most { length pieces.now ≤ 9 * length chains.now + 1 }
    requires least { 0 < length chains.now → 9 * length chains.now ≤ length pieces.now + 7 }
    ensures held { IfOk result (λ frames. FramesHold to_device pieces.now frames.items) }
    ensures addresses { IfOk result (λ frames. addresses frames.items ≡ chains.now) }
    ensures sized { IfOk result (λ frames. IsTrue (are_sized frames.items)) }
{
    let mut frames = Vec::new(alloc);
    for (i, address) in chains.iter().enumerate() {
        let mut bytes = [0; 128];
        let rest = &pieces[9 * i..];
        write_area(&mut bytes, rest, 9, to_device, address_at(chains, i + 1));
        frames.push(ChainFrame {
            address: *address,
            bytes,
        })?;
    }
    Ok(frames)
}

// The address of the frame of this number, if there is one.
fn address_at(chains: &[u64], i: usize) -> Option<u64>
    ensures { result ≡ slice_get chains.now i }
{
    chains.get(i).copied()
}

// ChainOffset, where the frames lie at these addresses.
fn chain_offset(chains: &[u64]) -> u8
    ensures { result ≡ (if length chains.now == 0 then 0x00 else 0x1b) }
{
    if chains.is_empty() { 0x00 } else { 0x1b }
}
