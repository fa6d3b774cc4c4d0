//! The command that a schedule names.
ghost use Rattle.std.specs.Prelude.{◌≡◌, ◌*◌, IfOk};
ghost use Rattle.mpt_trace.specs.Command.{cdb_of, command_named, filled, len_of, payload_of, transfer_10, transfer_16};

use crate::command_form::CommandForm;
use byteorder::{BigEndian, ByteOrder};
use mpi_names::{INQUIRY, READ_10, READ_16, READ_CAPACITY_10, WRITE_10, WRITE_16};
use mpt_text::OutOfMemory;
use scsi_disk::{Bytes, Cdb, Command};
use std::alloc::Global;

/// The command that a form names, for logical unit 0: its CDB by SPC-4 and SBC-3, its length as the
/// CDB names it, and the data of a WRITE, which is `fill` over and over. Data above 4,096 bytes isn't
/// made. Or OutOfMemory.
pub fn command_of(alloc: Global, form: &CommandForm) -> Result<Command, OutOfMemory>
    ensures { IfOk result (λ command. command ≡ command_named form.now) }
{
    let payload = make_payload(alloc, form)?;
    Ok(Command {
        lun: 0,
        cdb: make_cdb(form),
        len: length(form),
        payload,
    })
}

fn make_cdb(form: &CommandForm) -> Cdb
    ensures { result ≡ cdb_of form.now }
{
    match form {
        CommandForm::Tur => Cdb::new(&[0; 6]),
        CommandForm::Inquiry { len } => make_inquiry(*len),
        CommandForm::Capacity => Cdb::new(&[READ_CAPACITY_10, 0, 0, 0, 0, 0, 0, 0, 0, 0]),
        CommandForm::Read { lba, blocks } => make_transfer_10(READ_10, *lba, *blocks),
        CommandForm::Write { lba, blocks, .. } => make_transfer_10(WRITE_10, *lba, *blocks),
        CommandForm::Read16 { lba, blocks } => make_transfer_16(READ_16, *lba, *blocks),
        CommandForm::Write16 { lba, blocks, .. } => make_transfer_16(WRITE_16, *lba, *blocks),
        CommandForm::Raw { cdb, .. } => cdb.copy(),
    }
}

fn make_inquiry(len: u16) -> Cdb
    ensures { result ≡ cdb_of (CommandForm.Inquiry len) }
{
    let mut bytes = [INQUIRY, 0, 0, 0, 0, 0];
    BigEndian::write_u16(&mut bytes[3..], len);
    Cdb::new(&bytes)
}

fn make_transfer_10(code: u8, lba: u32, blocks: u16) -> Cdb
    ensures { result ≡ transfer_10 code lba blocks }
{
    let mut bytes = [code, 0, 0, 0, 0, 0, 0, 0, 0, 0];
    BigEndian::write_u32(&mut bytes[2..], lba);
    BigEndian::write_u16(&mut bytes[7..], blocks);
    Cdb::new(&bytes)
}

fn make_transfer_16(code: u8, lba: u64, blocks: u16) -> Cdb
    ensures { result ≡ transfer_16 code lba blocks }
{
    let mut bytes = [code, 0, 0, 0, 0, 0, 0, 0, 0, 0, 0, 0, 0, 0, 0, 0];
    BigEndian::write_u64(&mut bytes[2..], lba);
    BigEndian::write_u32(&mut bytes[10..], u32::from(blocks));
    Cdb::new(&bytes)
}

fn length(form: &CommandForm) -> u32
    ensures { result ≡ len_of form.now }
{
    match form {
        CommandForm::Tur => 0,
        CommandForm::Inquiry { len } => u32::from(*len),
        CommandForm::Capacity => 8,
        CommandForm::Read { blocks, .. }
        | CommandForm::Write { blocks, .. }
        | CommandForm::Read16 { blocks, .. }
        | CommandForm::Write16 { blocks, .. } => bytes_of_blocks(*blocks),
        CommandForm::Raw { len, .. } => *len,
    }
}

fn bytes_of_blocks(blocks: u16) -> u32
    ensures { result ≡ 512 * blocks }
{
    512 * u32::from(blocks)
}

fn make_payload(alloc: Global, form: &CommandForm) -> Result<Bytes, OutOfMemory>
    ensures { IfOk result (λ bytes. bytes ≡ payload_of form.now) }
{
    match form {
        CommandForm::Write { blocks, fill, .. } | CommandForm::Write16 { blocks, fill, .. } => {
            fill_blocks(alloc, *blocks, *fill)
        }
        _ => Ok(Bytes::empty(alloc)),
    }
}

fn fill_blocks(alloc: Global, blocks: u16, fill: u8) -> Result<Bytes, OutOfMemory>
    ensures { IfOk result (λ bytes. bytes ≡ filled blocks fill) }
{
    let count = bytes_of_blocks(blocks) as usize;
    if count > Bytes::MAX_LEN {
        return Ok(Bytes::empty(alloc));
    }
    let mut bytes = Vec::new(alloc);
    bytes.resize(count, fill)?;
    Ok(Bytes::new(bytes))
}
