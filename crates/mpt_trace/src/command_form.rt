//! The commands that a schedule can name.
ghost use Rattle.std.specs.Prelude.{◌≡◌};

use mpt_text::OutOfMemory;
use scsi_disk::Cdb;
use std::alloc::Global;

/// A command by its parameters (SBC-3, SPC-4), or by its bytes.
#[derive(Drop)]
pub enum CommandForm {
    /// TEST UNIT READY.
    Tur,
    /// INQUIRY.
    Inquiry {
        /// The ALLOCATION LENGTH, in bytes.
        len: u16,
    },
    /// READ CAPACITY(10).
    Capacity,
    /// READ(10).
    Read {
        /// The LOGICAL BLOCK ADDRESS.
        lba: u32,
        /// The TRANSFER LENGTH, in blocks of 512 bytes.
        blocks: u16,
    },
    /// WRITE(10).
    Write {
        /// The LOGICAL BLOCK ADDRESS.
        lba: u32,
        /// The TRANSFER LENGTH, in blocks of 512 bytes.
        blocks: u16,
        /// Each byte of the data.
        fill: u8,
    },
    /// READ(16).
    Read16 {
        /// The LOGICAL BLOCK ADDRESS.
        lba: u64,
        /// The TRANSFER LENGTH, in blocks of 512 bytes.
        blocks: u16,
    },
    /// WRITE(16).
    Write16 {
        /// The LOGICAL BLOCK ADDRESS.
        lba: u64,
        /// The TRANSFER LENGTH, in blocks of 512 bytes.
        blocks: u16,
        /// Each byte of the data.
        fill: u8,
    },
    /// Any command descriptor block, without data for the disk.
    Raw {
        /// The command descriptor block.
        cdb: Cdb,
        /// The number of bytes that are moved at most.
        len: u32,
    },
}

impl CommandForm {
    /// An equal value. It takes no memory, so it always answers Ok.
    pub fn copy(&self, _alloc: Global) -> Result<CommandForm, OutOfMemory>
        ensures { result ≡ Ok self.now }
    {
        Ok(match self {
            CommandForm::Tur => CommandForm::Tur,
            CommandForm::Inquiry { len } => CommandForm::Inquiry { len: *len },
            CommandForm::Capacity => CommandForm::Capacity,
            CommandForm::Read { lba, blocks } => CommandForm::Read {
                lba: *lba,
                blocks: *blocks,
            },
            CommandForm::Write { lba, blocks, fill } => CommandForm::Write {
                lba: *lba,
                blocks: *blocks,
                fill: *fill,
            },
            CommandForm::Read16 { lba, blocks } => CommandForm::Read16 {
                lba: *lba,
                blocks: *blocks,
            },
            CommandForm::Write16 { lba, blocks, fill } => CommandForm::Write16 {
                lba: *lba,
                blocks: *blocks,
                fill: *fill,
            },
            CommandForm::Raw { cdb, len } => CommandForm::Raw {
                cdb: cdb.copy(),
                len: *len,
            },
        })
    }
}
