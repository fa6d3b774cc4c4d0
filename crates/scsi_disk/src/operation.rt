//! What a CDB asks for.
ghost use Rattle.std.specs.Prelude.{◌≡◌};
ghost use Rattle.scsi_disk.specs.Operation.{operation_of, transfer_10 as transfer_of_10, transfer_16 as transfer_of_16};

use crate::cdb::Cdb;
use mpi_names::{INQUIRY, READ_10, READ_16, READ_CAPACITY_10, TEST_UNIT_READY, WRITE_10, WRITE_16};

/// The blocks that a READ or a WRITE names (SBC-3).
#[derive(Clone, Copy, Debug)]
pub struct Transfer {
    /// LOGICAL BLOCK ADDRESS, the first block.
    pub address: u64,
    /// TRANSFER LENGTH, the number of blocks.
    pub blocks: u32,
}

/// A command that the disks know.
#[derive(Clone, Copy, Debug)]
pub enum Operation {
    /// TEST UNIT READY.
    TestUnitReady,
    /// INQUIRY.
    Inquiry {
        /// Byte 1, whose bit 0 is EVPD. The disks know no vital product data.
        evpd_byte: u8,
        /// ALLOCATION LENGTH, in bytes.
        allocation_length: u16,
    },
    /// READ CAPACITY(10).
    ReadCapacity,
    /// READ(10) or READ(16).
    Read(Transfer),
    /// WRITE(10) or WRITE(16).
    Write(Transfer),
}

impl Operation {
    /// What the CDB asks for, if the disks know its OPERATION CODE.
    #[tactic(auto, unfolding(crate::specs::Operation::operation_of))]
    pub fn decode(cdb: &Cdb) -> Option<Operation>
        ensures { result ≡ operation_of cdb.now }
    {
        match cdb.byte(0) {
            TEST_UNIT_READY => Some(Operation::TestUnitReady),
            INQUIRY => Some(Operation::Inquiry {
                evpd_byte: cdb.byte(1),
                allocation_length: cdb.number_of_2(3),
            }),
            READ_CAPACITY_10 => Some(Operation::ReadCapacity),
            READ_10 => Some(Operation::Read(transfer_10(cdb))),
            WRITE_10 => Some(Operation::Write(transfer_10(cdb))),
            READ_16 => Some(Operation::Read(transfer_16(cdb))),
            WRITE_16 => Some(Operation::Write(transfer_16(cdb))),
            _ => None,
        }
    }
}

// The blocks that a READ(10) or WRITE(10) names.
fn transfer_10(cdb: &Cdb) -> Transfer
    ensures { result ≡ transfer_of_10 cdb.now }
{
    Transfer {
        address: u64::from(cdb.number_of_4(2)),
        blocks: u32::from(cdb.number_of_2(7)),
    }
}

// The blocks that a READ(16) or WRITE(16) names.
fn transfer_16(cdb: &Cdb) -> Transfer
    ensures { result ≡ transfer_of_16 cdb.now }
{
    Transfer {
        address: cdb.number_of_8(2),
        blocks: cdb.number_of_4(10),
    }
}
