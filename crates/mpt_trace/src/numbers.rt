//! How numbers and bytes stand in a trace.
ghost use Rattle.std.specs.Prelude.{◌≡◌, ◌++◌, OnOk, decimal};
ghost use Rattle.mpt_text.specs.Words.{bytes_text, hex_number};
ghost use Rattle.mpt_trace.specs.Numbers.{address_text, byte_text, descriptor_text, handle_text, place_text};

use byteorder::{ByteOrder, LittleEndian};
use mpi_names::{Address, Handle};
use mpt_text::{OutOfMemory, Text};

/// Adds a SAS address: 16 hexadecimal digits.
/// Where memory is wanting a part of it may have been added.
pub fn push_address(text: &mut Text, address: Address) -> Result<(), OutOfMemory>
    ensures { OnOk result (text.new ≡ text.old ++ address_text address) }
{
    text.push_hex(address, 8)
}

/// Adds a handle: four hexadecimal digits.
/// Where memory is wanting a part of it may have been added.
pub fn push_handle(text: &mut Text, handle: Handle) -> Result<(), OutOfMemory>
    ensures { OnOk result (text.new ≡ text.old ++ handle_text handle) }
{
    text.push_hex(u64::from(handle), 2)
}

/// Adds a byte: two hexadecimal digits.
/// Where memory is wanting a part of it may have been added.
pub fn push_byte(text: &mut Text, byte: u8) -> Result<(), OutOfMemory>
    ensures { OnOk result (text.new ≡ text.old ++ byte_text byte) }
{
    text.push_hex(u64::from(byte), 1)
}

/// Adds a descriptor, which is the little-endian number of its 8 bytes: two hexadecimal digits for
/// each byte in order.
/// Where memory is wanting a part of it may have been added.
pub fn push_descriptor(text: &mut Text, descriptor: u64) -> Result<(), OutOfMemory>
    ensures { OnOk result (text.new ≡ text.old ++ descriptor_text descriptor) }
{
    let mut bytes = [0u8; 8];
    LittleEndian::write_u64(&mut bytes, descriptor);
    text.push_digits(&bytes)
}

/// Adds the number of an expander and of its phy, in decimal.
/// Where memory is wanting a part of it may have been added.
pub fn push_place(text: &mut Text, expander: u8, phy: u8) -> Result<(), OutOfMemory>
    ensures { OnOk result (text.new ≡ text.old ++ place_text expander phy) }
{
    text.push_decimal(u64::from(expander))?;
    text.push(b" ")?;
    text.push_decimal(u64::from(phy))
}

// Adds a piece and a number in decimal.
pub(crate) fn push_number(text: &mut Text, piece: &[u8], number: u64) -> Result<(), OutOfMemory>
    ensures { OnOk result (text.new ≡ text.old ++ (piece.now ++ decimal number)) }
{
    text.push(piece)?;
    text.push_decimal(number)
}

// Adds a piece and an address.
pub(crate) fn push_addressed(
    text: &mut Text,
    piece: &[u8],
    address: Address,
) -> Result<(), OutOfMemory>
    ensures { OnOk result (text.new ≡ text.old ++ (piece.now ++ address_text address)) }
{
    text.push(piece)?;
    push_address(text, address)
}

// Adds a piece and the bytes text.
pub(crate) fn push_bytes(text: &mut Text, piece: &[u8], bytes: &[u8]) -> Result<(), OutOfMemory>
    ensures { OnOk result (text.new ≡ text.old ++ (piece.now ++ bytes_text bytes.now)) }
{
    text.push(piece)?;
    text.push_bytes(bytes)
}

// Adds a piece and a number of 16 bits: four hexadecimal digits.
pub(crate) fn push_half(text: &mut Text, piece: &[u8], number: u16) -> Result<(), OutOfMemory>
    ensures { OnOk result (text.new ≡ text.old ++ (piece.now ++ hex_number 2 number)) }
{
    text.push(piece)?;
    text.push_hex(u64::from(number), 2)
}

// Adds a piece and a number of 32 bits: eight hexadecimal digits.
pub(crate) fn push_dword(text: &mut Text, piece: &[u8], number: u32) -> Result<(), OutOfMemory>
    ensures { OnOk result (text.new ≡ text.old ++ (piece.now ++ hex_number 4 number)) }
{
    text.push(piece)?;
    text.push_hex(u64::from(number), 4)
}
