//! One segment: the first area, or a frame.
ghost use Rattle.std.specs.Prelude.{◌≡◌, ◌≤◌, ◌<◌, ◌+◌, ◌*◌, ◌++◌, ◌==◌, IsTrue, MatchResult, IfOk, IfSome, OnOk, Some, None, drop, length, map, if◌then◌else◌};
ghost use Rattle.std.specs.List.{list_all};
ghost use Rattle.std.specs.Option.{ForNone, ForSome};
ghost use Rattle.mpt_sgl.specs.Areas.{area_elements, simple_run};
ghost use Rattle.mpt_sgl.specs.Elements.{chain_shape, element_at, elements_in, is_zero};
ghost use Rattle.mpt_sgl.specs.Faults.{IsFault};
ghost use Rattle.mpt_sgl.specs.Pieces.{is_piece};
ghost use Rattle.mpt_sgl.specs.Spelling.{are_bytes};
ghost use Rattle.mpt_sgl.specs.Segments.{chain_fault, element_count, next_shape, piece_of, segment_fault, segment_pieces, simples_fault, unused_fault};

use crate::element::{ELEMENT_BYTES, Element, Shape};
use crate::fault::SglFault;
use crate::list::Piece;

// MPI2_SGE_FLAGS_*: a simple element with 64-bit addresses that is none of the following; the last
// one before a chain element; the last of all.
const SIMPLE: u8 = 0x12;

const LAST_OF_AREA: u8 = 0x92;

const LAST: u8 = 0xd3;

const CHAIN: u8 = 0x32;

/// Writes the elements of the pieces into an area with this much room for pieces before a chain
/// element: all of them, or, where there is a next frame, as many as there is room for and the chain
/// element to it.
pub(crate) fn write_area(
    out: &mut [u8],
    pieces: &[Piece],
    room: usize,
    to_device: bool,
    next: Option<u64>,
)
    requires sound { IsTrue (list_all is_piece pieces.now) }
    requires within { 12 * room + 12 ≤ length out.old }
    requires small { room ≤ 9 }
    requires last { ForNone next (length pieces.now ≤ room + 1) }
    requires more { ForSome next (λ _. room + 2 ≤ length pieces.now) }
    requires few { length pieces.now ≤ 256 }
    ensures elements { elements_in (length (area_elements to_device room pieces.now next)) out.new ≡ area_elements to_device room pieces.now next }
    ensures rest { drop (12 * length (area_elements to_device room pieces.now next)) out.new ≡ drop (12 * length (area_elements to_device room pieces.now next)) out.old }
    ensures bytes { IsTrue (are_bytes out.new) }
{
    match next {
        None => write_simple(out, pieces, to_device, LAST),
        Some(address) => {
            write_simple(out, &pieces[..room], to_device, LAST_OF_AREA);
            let chain = Element::chain(pieces.len() - room, address);
            chain.write(&mut out[ELEMENT_BYTES * room..]);
        }
    }
}

// Writes an element for each piece; the last of them has its own flags.
fn write_simple(out: &mut [u8], pieces: &[Piece], to_device: bool, last: u8)
    requires sound { IsTrue (list_all is_piece pieces.now) }
    requires within { 12 * length pieces.now ≤ length out.old }
    requires flags { last < 252 }
    ensures elements { elements_in (length pieces.now) out.new ≡ simple_run to_device last pieces.now }
    ensures rest { drop (12 * length pieces.now) out.new ≡ drop (12 * length pieces.now) out.old }
{
    for (place, piece) in pieces.iter().enumerate() {
        let flags = if place + 1 == pieces.len() {
            last
        } else {
            SIMPLE
        };
        let element = Element::simple(piece, flags, to_device);
        element.write(&mut out[ELEMENT_BYTES * place..]);
    }
}

/// Reads a segment of this shape: adds its pieces, and says what the next segment has. The address is
/// the next frame's, if there is one.
#[tactic(auto, unfolding(crate::specs::Segments::segment_fault, crate::specs::Segments::next_shape))]
pub(crate) fn read_area(
    pieces: &mut Vec<Piece>,
    segment: u32,
    shape: Shape,
    to_device: bool,
    bytes: &[u8],
    next: Option<u64>,
) -> Result<Option<Shape>, SglFault>
    requires { 12 * element_count shape ≤ length bytes.now }
    ensures read { MatchResult result
        (λ following. (segment_fault segment shape to_device bytes.now next ≡ None) × (following ≡ next_shape shape bytes.now) × (pieces.new.items ≡ pieces.old.items ++ segment_pieces shape bytes.now))
        (λ fault. IsFault (segment_fault segment shape to_device bytes.now next) fault) }
    ensures sound { IsTrue (list_all is_piece pieces.old.items) → OnOk result (IsTrue (list_all is_piece pieces.new.items)) }
    ensures room { IfOk result (λ following. IfSome following (λ s. element_count s ≤ 10)) }
{
    let end = ELEMENT_BYTES * shape.simple as usize;
    if shape.chained {
        read_simple(
            pieces,
            segment,
            shape.simple,
            to_device,
            LAST_OF_AREA,
            bytes,
        )?;
        let following = read_chain(segment, shape.simple, &bytes[end..], next)?;
        check_unused(segment, &bytes[end + ELEMENT_BYTES..])?;
        Ok(Some(following))
    } else {
        read_simple(pieces, segment, shape.simple, to_device, LAST, bytes)?;
        check_unused(segment, &bytes[end..])?;
        Ok(None)
    }
}

// Adds the pieces of so many elements; the last of them has its own flags.
fn read_simple(
    pieces: &mut Vec<Piece>,
    segment: u32,
    count: u8,
    to_device: bool,
    last: u8,
    bytes: &[u8],
) -> Result<(), SglFault>
    requires within { 12 * count ≤ length bytes.now }
    requires flags { last < 252 }
    ensures read { MatchResult result
        (λ _. (simples_fault segment 0 to_device last (elements_in count bytes.now) ≡ None) × (pieces.new.items ≡ pieces.old.items ++ map piece_of (elements_in count bytes.now)))
        (λ fault. IsFault (simples_fault segment 0 to_device last (elements_in count bytes.now)) fault) }
    ensures sound { IsTrue (list_all is_piece pieces.old.items) → OnOk result (IsTrue (list_all is_piece pieces.new.items)) }
{
    for place in 0..count {
        let element = Element::read(&bytes[ELEMENT_BYTES * place as usize..]);
        let flags = due_flags(to_device, place + 1 == count, last);
        if element.flags != flags {
            return Err(SglFault::Flags {
                segment,
                element: place,
            });
        }
        if element.length == 0 {
            return Err(SglFault::Length {
                segment,
                element: place,
            });
        }
        let piece = Piece {
            address: element.address,
            len: element.length,
        };
        if pieces.push(piece).is_err() {
            return Err(SglFault::OutOfMemory);
        }
    }
    Ok(())
}

// The flags of a piece's element.
fn due_flags(to_device: bool, is_last: bool, last: u8) -> u8
    requires { last < 252 }
    ensures { result ≡ (if to_device then (if is_last then last else 0x12) + 4 else if is_last then last else 0x12) }
{
    let flags = if is_last { last } else { SIMPLE };
    if to_device { flags + 4 } else { flags }
}

// What the frame has that the chain element at the front of the bytes leads to.
fn read_chain(segment: u32, place: u8, bytes: &[u8], next: Option<u64>) -> Result<Shape, SglFault>
    requires { 12 ≤ length bytes.now }
    ensures read { MatchResult result
        (λ shape. (chain_fault segment place (element_at bytes.now) next ≡ None) × (chain_shape (element_at bytes.now).length ≡ Some shape))
        (λ fault. chain_fault segment place (element_at bytes.now) next ≡ Some fault) }
    ensures room { IfOk result (λ shape. element_count shape ≤ 10) }
{
    let element = Element::read(bytes);
    if element.flags != CHAIN {
        return Err(SglFault::Flags {
            segment,
            element: place,
        });
    }
    let Some(shape) = element.next_shape() else {
        return Err(SglFault::Length {
            segment,
            element: place,
        });
    };
    match next {
        None => Err(SglFault::Missing { segment }),
        Some(address) if element.address == address => Ok(shape),
        Some(_) => Err(SglFault::Address {
            segment,
            element: place,
        }),
    }
}

// The bytes behind a segment's elements are zero, or the segment has a stray byte.
pub(crate) fn check_unused(segment: u32, bytes: &[u8]) -> Result<(), SglFault>
    ensures { MatchResult result (λ _. unused_fault segment bytes.now ≡ None) (λ fault. unused_fault segment bytes.now ≡ Some fault) }
{
    if is_zero(bytes) {
        Ok(())
    } else {
        Err(SglFault::Stray { segment })
    }
}

fn is_zero(bytes: &[u8]) -> bool
    ensures { result ≡ is_zero bytes.now }
{
    bytes.iter().all(|byte| *byte == 0)
}
