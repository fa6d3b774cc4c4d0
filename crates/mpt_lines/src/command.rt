//! The commands of a `submit` line, by their words.
ghost use Rattle.std.specs.Prelude.{◌≡◌, ◌≤◌, IfOk};
ghost use Rattle.mpt_lines.specs.Commands as spec;

use crate::fault::Cause;
use crate::numbers::{byte, cdb, check_bytes, number, within};
use crate::pieces::{Pieces, text_of};
use mpt_trace::CommandForm;

/// The command that the words name: its name and its parameters.
pub(crate) fn command(mut words: Pieces) -> Result<CommandForm, Cause>
    ensures { result ≡ spec.command words.entry }
{
    let Some(word) = words.take() else {
        return Err(Cause::Form);
    };
    match text_of(word) {
        "tur" => tur(words),
        "inquiry" => inquiry(words),
        "capacity" => capacity(words),
        "read" => read(words),
        "write" => write(words),
        "read16" => read16(words),
        "write16" => write16(words),
        "raw" => raw(words),
        _ => Err(Cause::Form),
    }
}

fn tur(words: Pieces) -> Result<CommandForm, Cause>
    ensures { result ≡ spec.tur words.entry }
{
    words.none()?;
    Ok(CommandForm::Tur)
}

fn inquiry(words: Pieces) -> Result<CommandForm, Cause>
    ensures { result ≡ spec.inquiry words.entry }
{
    let len = number(words.one()?)?;
    Ok(CommandForm::Inquiry {
        len: within(0, u16::MAX as u64, len)? as u16,
    })
}

fn capacity(words: Pieces) -> Result<CommandForm, Cause>
    ensures { result ≡ spec.capacity words.entry }
{
    words.none()?;
    Ok(CommandForm::Capacity)
}

// The first block, at most this, and how many.
fn extent(most: u64, words: Pieces) -> Result<(u64, u16), Cause>
    ensures value { result ≡ spec.extent most words.entry }
    ensures most { IfOk result (λ e. e.0 ≤ most) }
{
    let (lba, blocks) = words.two()?;
    let lba = number(lba)?;
    let blocks = number(blocks)?;
    let lba = within(0, most, lba)?;
    Ok((lba, within(0, u16::MAX as u64, blocks)? as u16))
}

// The first block, at most this, how many, and the byte that is written to each.
fn filled_extent(most: u64, words: Pieces) -> Result<(u64, u16, u8), Cause>
    ensures value { result ≡ spec.filled_extent most words.entry }
    ensures most { IfOk result (λ e. e.0 ≤ most) }
{
    let (lba, blocks, fill) = words.three()?;
    let lba = number(lba)?;
    let blocks = number(blocks)?;
    let fill = byte(fill)?;
    let lba = within(0, most, lba)?;
    Ok((lba, within(0, u16::MAX as u64, blocks)? as u16, fill))
}

fn read(words: Pieces) -> Result<CommandForm, Cause>
    ensures { result ≡ spec.read words.entry }
{
    let (lba, blocks) = extent(u32::MAX as u64, words)?;
    Ok(CommandForm::Read {
        lba: lba as u32,
        blocks,
    })
}

fn read16(words: Pieces) -> Result<CommandForm, Cause>
    ensures { result ≡ spec.read16 words.entry }
{
    let (lba, blocks) = extent(u64::MAX, words)?;
    Ok(CommandForm::Read16 { lba, blocks })
}

fn write(words: Pieces) -> Result<CommandForm, Cause>
    ensures { result ≡ spec.write words.entry }
{
    let (lba, blocks, fill) = filled_extent(u32::MAX as u64, words)?;
    Ok(CommandForm::Write {
        lba: lba as u32,
        blocks,
        fill,
    })
}

fn write16(words: Pieces) -> Result<CommandForm, Cause>
    ensures { result ≡ spec.write16 words.entry }
{
    let (lba, blocks, fill) = filled_extent(u64::MAX, words)?;
    Ok(CommandForm::Write16 { lba, blocks, fill })
}

fn raw(words: Pieces) -> Result<CommandForm, Cause>
    ensures { result ≡ spec.raw words.entry }
{
    let (digits, len) = words.two()?;
    check_bytes(digits)?;
    let len = number(len)?;
    Ok(CommandForm::Raw {
        cdb: cdb(digits)?,
        len: within(0, u32::MAX as u64, len)? as u32,
    })
}
