//! The printed fields of a message.
ghost use Rattle.std.specs.Prelude.{◌≡◌, ◌≤◌, ◌<◌, ◌^◌, ◌++◌, IsTrue, OnOk, map};
ghost use Rattle.mpi_layout.specs.Rows.{row_shape, values_fit};
ghost use Rattle.byteorder.specs.Endian.{little_bytes};
ghost use Rattle.mpt_text.specs.Words.{bytes_text};
ghost use Rattle.mpt_messages.specs.Listing.{fault_text, field_text, heading_text, listing_text, name_at, row_text, rows_text, short_text, tail_text, value_text};

use mpi_layout::{Fault, Form, Layout, Row};
use mpt_text::{OutOfMemory, Text};

/// Adds a listing's first line: the message's name and its length in bytes, in decimal.
pub fn push_heading(text: &mut Text, name: &[u8], bytes: u64) -> Result<(), OutOfMemory>
    ensures { OnOk result (text.new ≡ text.old ++ heading_text name.now bytes) }
{
    text.push(name)?;
    text.push(b" ")?;
    text.push_decimal(bytes)?;
    text.push(b"\n")
}

/// Adds the listing of a message, descriptor or page that is its layout's rows and no more: its name
/// and length, and a line for each row.
pub fn push_listing<const N: usize>(
    text: &mut Text,
    name: &[u8],
    layout: &Layout<N>,
    values: &[u64; N],
) -> Result<(), OutOfMemory>
    requires { N ≤ 64 }
    ensures { OnOk result (text.new ≡ text.old ++ listing_text name.now layout.now values.now) }
{
    push_heading(text, name, u64::from(layout.length()))?;
    push_rows(text, layout, values)
}

/// Adds a line for each row: two digits of its offset, its name, and its value as `0x` and two
/// digits for each byte, or as the bytes text.
pub fn push_rows<const N: usize>(
    text: &mut Text,
    layout: &Layout<N>,
    values: &[u64; N],
) -> Result<(), OutOfMemory>
    requires { N ≤ 64 }
    ensures { OnOk result (text.new ≡ text.old ++ rows_text 0 layout.now.rows values.now) }
{
    push_rows_from(text, 0, layout, values)
}

/// The same for a part of a message that begins at an offset.
pub fn push_rows_from<const N: usize>(
    text: &mut Text,
    start: u8,
    layout: &Layout<N>,
    values: &[u64; N],
) -> Result<(), OutOfMemory>
    requires { N ≤ 64 }
    ensures { OnOk result (text.new ≡ text.old ++ rows_text start layout.now.rows values.now) }
{
    let rows = layout.rows();
    for i in 0..N {
        push_row(text, start, &rows[i], values[i])?;
    }
    Ok(())
}

fn push_row(text: &mut Text, start: u8, row: &Row, value: u64) -> Result<(), OutOfMemory>
    requires { row.now.width ≤ 8 }
    ensures { OnOk result (text.new ≡ text.old ++ row_text start (row_shape row.now) value) }
{
    text.push_digits(&[start.wrapping_add(row.at)])?;
    text.push(b" ")?;
    text.push(row.name.as_bytes())?;
    text.push(b" ")?;
    push_value(text, row, value)?;
    text.push(b"\n")
}

fn push_value(text: &mut Text, row: &Row, value: u64) -> Result<(), OutOfMemory>
    requires { row.now.width ≤ 8 }
    ensures { OnOk result (text.new ≡ text.old ++ value_text row.now.form row.now.width value) }
{
    match row.form {
        Form::Number => {
            text.push(b"0x")?;
            text.push_hex(value, row.width)
        }
        Form::Bytes => push_little(text, value, row.width),
    }
}

// Adds the bytes text of the lowest bytes of a number, the lowest first.
fn push_little(text: &mut Text, value: u64, width: u8) -> Result<(), OutOfMemory>
    requires { width ≤ 8 }
    ensures { OnOk result (text.new ≡ text.old ++ bytes_text (little_bytes width value)) }
{
    let bytes = value.to_le_bytes();
    text.push_bytes(&bytes[..width as usize])
}

/// Adds the line of a message's tail: two digits of its offset, `Tail` and the bytes text.
pub fn push_tail(text: &mut Text, at: u8, bytes: &[u8]) -> Result<(), OutOfMemory>
    ensures { OnOk result (text.new ≡ text.old ++ tail_text at bytes.now) }
{
    text.push_digits(&[at])?;
    text.push(b" Tail ")?;
    text.push_bytes(bytes)?;
    text.push(b"\n")
}

/// Adds the line of a layout's fault: `short need N have M`, or `field OO Name` with the offset and
/// name of the row.
pub fn push_fault<const N: usize>(
    text: &mut Text,
    layout: &Layout<N>,
    fault: Fault,
) -> Result<(), OutOfMemory>
    ensures { OnOk result (text.new ≡ text.old ++ fault_text layout.now.rows fault) }
{
    match fault {
        Fault::Short { need, have } => push_short(text, need as u64, have as u64),
        Fault::Field { at } => push_field(text, at, row_name(layout.rows(), at)),
    }
}

/// Adds the line of a row that breaks its rule: `field OO Name` with its offset and name.
pub(crate) fn push_field(text: &mut Text, at: u8, name: &str) -> Result<(), OutOfMemory>
    ensures { OnOk result (text.new ≡ text.old ++ field_text at name.now) }
{
    text.push(b"field ")?;
    text.push_digits(&[at])?;
    text.push(b" ")?;
    text.push(name.as_bytes())?;
    text.push(b"\n")
}

/// Adds the line of bytes that are too few: `short need N have M`.
pub fn push_short(text: &mut Text, need: u64, have: u64) -> Result<(), OutOfMemory>
    ensures { OnOk result (text.new ≡ text.old ++ short_text need have) }
{
    text.push(b"short need ")?;
    text.push_decimal(need)?;
    text.push(b" have ")?;
    text.push_decimal(have)?;
    text.push(b"\n")
}

// The name of the first row at the offset, or nothing where there is none.
fn row_name(rows: &'static [Row], at: u8) -> &'static str
    ensures { result.now ≡ name_at (map row_shape rows.now) at }
{
    for row in rows {
        if row.at == at {
            return row.name;
        }
    }
    ""
}
