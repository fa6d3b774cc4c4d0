//! How the bytes of a scatter list are read.
ghost use Rattle.std.specs.Prelude.{◌≡◌, ◌≢◌, ◌≤◌, ◌<◌, ◌+◌, ◌*◌, ◌^◌, ◌||◌, ◌==◌, not, IsTrue, IfOk, MatchResult, true, false, None, Some, length, if◌then◌else◌};
ghost use Rattle.std.specs.List.{list_all};
ghost use Rattle.mpt_sgl.specs.declared.list.List.{List as ScatterList};
ghost use Rattle.mpt_sgl.specs.Elements.{element_at};
ghost use Rattle.mpt_sgl.specs.Faults.{IsFault, chain_faults, chain_pieces, empty_fault, first_fault, first_shape, is_empty_lead};
ghost use Rattle.mpt_sgl.specs.Pieces.{is_piece};
ghost use Rattle.mpt_sgl.specs.Segments.{element_count};
ghost use Rattle.mpt_sgl.specs.Spelling.{Spells};

use crate::area::{check_unused, read_area};
use crate::chained::ChainFrame;
use crate::element::{ELEMENT_BYTES, Element, Shape};
use crate::fault::SglFault;
use crate::list::{List, Piece, Pieces};
use std::alloc::Global;

/// The most pieces of a list.
const MOST_PIECES: usize = 256;

/// Reads the list that the bytes spell, or finds their first fault. The offset is looked at first,
/// then the segments in order: in each its elements, of each the flags, the length and the address,
/// then whether a frame is missing, then the bytes behind them; last whether frames are left over, and
/// whether there are too many pieces.
///
/// # Errors
/// `OutOfMemory` where memory is wanting, and else the first fault.
pub fn read_list(
    alloc: Global,
    offset: u8,
    first: &[u8; 32],
    frames: &[ChainFrame],
) -> Result<List, SglFault>
    requires { length frames.now < 2 ^ 32 }
    ensures read { MatchResult result
        (λ list. Spells list (record { offset = offset; first = first.now; frames = frames.now }))
        (λ fault. IsFault (first_fault (record { offset = offset; first = first.now; frames = frames.now })) fault) }
    ensures only { (list : ScatterList) → Spells list (record { offset = offset; first = first.now; frames = frames.now })
        → MatchResult result (λ read. read ≡ list) (λ fault. fault ≡ SglFault.OutOfMemory) }
{
    let lead = Element::read(first);
    let shape = first_shape(offset, &lead)?;
    if is_empty_lead(offset, &lead) {
        check_empty(&lead, first, frames)?;
        return Ok(List {
            to_device: false,
            pieces: Pieces::new(Vec::new(alloc)),
        });
    }
    let to_device = lead.is_to_device();
    let pieces = read_pieces(alloc, shape, to_device, first, frames)?;
    if pieces.as_slice().len() > MOST_PIECES {
        return Err(SglFault::Many);
    }
    Ok(List {
        to_device,
        pieces: Pieces::new(pieces),
    })
}

// What the first area has.
fn first_shape(offset: u8, lead: &Element) -> Result<Shape, SglFault>
    ensures { MatchResult result
        (λ shape. ((offset == 0) || (offset == 0x1b) ≡ true) × (shape ≡ first_shape offset lead.now))
        (λ fault. ((offset == 0) || (offset == 0x1b) ≡ false) × (fault ≡ SglFault.Offset offset)) }
{
    match offset {
        0x00 if lead.flags == 0xd3 || lead.flags == 0xd7 => Ok(Shape {
            simple: 1,
            chained: false,
        }),
        0x00 => Ok(Shape {
            simple: 2,
            chained: false,
        }),
        0x1b => Ok(Shape {
            simple: 1,
            chained: true,
        }),
        _ => Err(SglFault::Offset(offset)),
    }
}

// Whether the first element is the empty list's but for its address.
fn is_empty_lead(offset: u8, lead: &Element) -> bool
    ensures { result ≡ is_empty_lead offset lead.now }
{
    offset == 0x00 && lead.flags == Element::EMPTY.flags && lead.length == 0
}

// The empty list has its one element and nothing else.
fn check_empty(lead: &Element, first: &[u8; 32], frames: &[ChainFrame]) -> Result<(), SglFault>
    requires { length frames.now < 2 ^ 32 }
    ensures { MatchResult result (λ _. empty_fault lead.now first.now frames.now ≡ None) (λ fault. empty_fault lead.now first.now frames.now ≡ Some fault) }
{
    if lead.address != u64::MAX {
        return Err(SglFault::Address {
            segment: 0,
            element: 0,
        });
    }
    check_unused(0, &first[ELEMENT_BYTES..])?;
    if !frames.is_empty() {
        return Err(SglFault::Extra {
            kept: 0,
            given: frames.len() as u32,
        });
    }
    Ok(())
}

// The pieces of all segments.
fn read_pieces(
    alloc: Global,
    shape: Shape,
    to_device: bool,
    first: &[u8],
    frames: &[ChainFrame],
) -> Result<Vec<Piece>, SglFault>
    requires room { 12 * element_count shape ≤ length first.now }
    requires few { length frames.now < 2 ^ 32 }
    ensures read { MatchResult result
        (λ pieces. (chain_faults 0 shape to_device first.now frames.now ≡ None) × (pieces.items ≡ chain_pieces shape first.now frames.now))
        (λ fault. IsFault (chain_faults 0 shape to_device first.now frames.now) fault) }
    ensures sound { IfOk result (λ pieces. IsTrue (list_all is_piece pieces.items)) }
{
    let mut pieces = Vec::new(alloc);
    let mut current = shape;
    let mut bytes = first;
    let mut segment = 0u32;
    for frame in frames {
        let address = Some(frame.address);
        let following = read_area(&mut pieces, segment, current, to_device, bytes, address)?;
        let Some(next) = following else {
            return Err(SglFault::Extra {
                kept: segment,
                given: frames.len() as u32,
            });
        };
        current = next;
        bytes = frame.area();
        segment += 1;
    }
    read_area(&mut pieces, segment, current, to_device, bytes, None)?;
    Ok(pieces)
}
