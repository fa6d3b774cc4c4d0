//! The listing of a scatter list, and the line of each fault.
ghost use Rattle.std.specs.Prelude.{◌≡◌, ◌++◌, IfOk, OnOk};
ghost use Rattle.std.specs.List.{flat_map};
ghost use Rattle.mpt_sgl.specs.Listing.{direction_word, element_fault_line, fault_line, list_heading, list_listing, piece_line, segment_fault_line};

use crate::fault::SglFault;
use crate::list::{List, Piece};
use mpt_text::{OutOfMemory, Text};
use std::alloc::Global;

/// The listing of a list: a line with the number of its pieces and `in` or `out`, and a line for each
/// piece with its address in 16 hexadecimal digits and its length in decimal.
///
/// # Errors
/// Only where memory is wanting.
pub fn list_text(alloc: Global, list: &List) -> Result<Text, OutOfMemory>
    ensures { IfOk result (λ text. text ≡ list_listing list.now) }
{
    let mut text = Text::new(alloc);
    push_heading(&mut text, list)?;
    push_pieces(&mut text, list.pieces.as_slice())?;
    Ok(text)
}

/// The line of a fault: what is wrong, and the numbers of the segment and of the element in it.
/// `OutOfMemory` has none.
///
/// # Errors
/// Only where memory is wanting.
pub fn fault_text(alloc: Global, fault: SglFault) -> Result<Text, OutOfMemory>
    ensures { IfOk result (λ text. text ≡ fault_line fault) }
{
    let mut text = Text::new(alloc);
    push_fault(&mut text, fault)?;
    Ok(text)
}

fn push_heading(text: &mut Text, list: &List) -> Result<(), OutOfMemory>
    ensures { OnOk result (text.new ≡ text.old ++ list_heading list.now) }
{
    text.push(b"sgl ")?;
    text.push_decimal(list.pieces.as_slice().len() as u64)?;
    text.push(b" ")?;
    push_direction(text, list.to_device)?;
    text.push(b"\n")
}

fn push_direction(text: &mut Text, to_device: bool) -> Result<(), OutOfMemory>
    ensures { OnOk result (text.new ≡ text.old ++ direction_word to_device) }
{
    text.push(if to_device { b"out" } else { b"in" })
}

fn push_pieces(text: &mut Text, pieces: &[Piece]) -> Result<(), OutOfMemory>
    ensures { OnOk result (text.new ≡ text.old ++ flat_map piece_line pieces.now) }
{
    for piece in pieces {
        push_piece(text, piece)?;
    }
    Ok(())
}

fn push_piece(text: &mut Text, piece: &Piece) -> Result<(), OutOfMemory>
    ensures { OnOk result (text.new ≡ text.old ++ piece_line piece.now) }
{
    text.push_hex(piece.address, 8)?;
    text.push(b" ")?;
    text.push_decimal(u64::from(piece.len))?;
    text.push(b"\n")
}

fn push_fault(text: &mut Text, fault: SglFault) -> Result<(), OutOfMemory>
    ensures { OnOk result (text.new ≡ text.old ++ fault_line fault) }
{
    match fault {
        SglFault::OutOfMemory => Ok(()),
        SglFault::Offset(_) => text.push(b"sgl offset\n"),
        SglFault::Flags { segment, element } => push_element(text, b"flags", segment, element),
        SglFault::Length { segment, element } => push_element(text, b"length", segment, element),
        SglFault::Address { segment, element } => push_element(text, b"address", segment, element),
        SglFault::Missing { segment } => push_segment(text, b"missing", segment),
        SglFault::Stray { segment } => push_segment(text, b"stray", segment),
        SglFault::Extra { .. } => text.push(b"sgl extra\n"),
        SglFault::Many => text.push(b"sgl many\n"),
    }
}

fn push_element(text: &mut Text, word: &[u8], segment: u32, element: u8) -> Result<(), OutOfMemory>
    ensures { OnOk result (text.new ≡ text.old ++ element_fault_line word.now segment element) }
{
    text.push(b"sgl ")?;
    text.push(word)?;
    text.push(b" ")?;
    text.push_decimal(u64::from(segment))?;
    text.push(b" ")?;
    text.push_decimal(u64::from(element))?;
    text.push(b"\n")
}

fn push_segment(text: &mut Text, word: &[u8], segment: u32) -> Result<(), OutOfMemory>
    ensures { OnOk result (text.new ≡ text.old ++ segment_fault_line word.now segment) }
{
    text.push(b"sgl ")?;
    text.push(word)?;
    text.push(b" ")?;
    text.push_decimal(u64::from(segment))?;
    text.push(b"\n")
}
