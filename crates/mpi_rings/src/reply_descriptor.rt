//! Reply descriptors.
ghost use Rattle.std.specs.Prelude.{◌≡◌, ◌==◌, ◌||◌, IsTrue, IfOk, MatchResult, Ok, Some, slice_index};
ghost use Rattle.mpi_layout.specs.Rows.{cut_from, first_fault, values_fit};
ghost use Rattle.mpi_rings.specs.ReplyDescriptor.{HasItsFlags, ReplyStands, address_layout, layout_of, reply_layout, reply_values, success_layout, unused_layout};

use crate::descriptor::bytes_of;
use mpi_layout::{Fault, Layout, Row, Rule, low, number, one_of, read};

// mpi2.h, MPI2_SCSI_IO_SUCCESS_REPLY_DESCRIPTOR.
static SUCCESS_ROWS: [Row; 5] = [
    number!(0x00, 1, "ReplyFlags", Rule::Is(0x00)),
    number!(0x01, 1, "MSIxIndex", Rule::Any),
    number!(0x02, 2, "SMID", Rule::Any),
    number!(0x04, 2, "TaskTag", Rule::Any),
    number!(0x06, 2, "Reserved", Rule::Any),
];

// mpi2.h, MPI2_ADDRESS_REPLY_DESCRIPTOR.
static ADDRESS_ROWS: [Row; 4] = [
    number!(0x00, 1, "ReplyFlags", Rule::Is(0x01)),
    number!(0x01, 1, "MSIxIndex", Rule::Any),
    number!(0x02, 2, "SMID", Rule::Any),
    number!(0x04, 4, "ReplyFrameAddress", Rule::Any),
];

// mpi2.h, MPI2_DEFAULT_REPLY_DESCRIPTOR.
static UNUSED_ROWS: [Row; 4] = [
    number!(0x00, 1, "ReplyFlags", one_of!(0x0f, 0xff)),
    number!(0x01, 1, "MSIxIndex", Rule::Any),
    number!(0x02, 2, "SMID", Rule::Any),
    number!(0x04, 4, "Reserved", Rule::Any),
];

/// A reply descriptor, by which the controller tells the host of a reply (mpi2.h,
/// MPI2_REPLY_DESCRIPTORS_UNION). 8 bytes.
#[derive(Clone, Copy, Debug, PartialEq, Eq)]
pub enum ReplyDescriptor {
    /// A SCSI IO request succeeded, and has no reply frame: ReplyFlags 00
    /// (MPI2_SCSI_IO_SUCCESS_REPLY_DESCRIPTOR).
    Success {
        /// The interrupt vector, MSIxIndex.
        msix: u8,
        /// The request's identifier, SMID.
        smid: u16,
        /// The task's tag, TaskTag.
        tag: u16,
        /// Reserved; any value is read.
        rest: u16,
    },
    /// A reply in a reply frame: ReplyFlags 01 (MPI2_ADDRESS_REPLY_DESCRIPTOR).
    Address {
        /// The interrupt vector, MSIxIndex.
        msix: u8,
        /// The request's identifier, SMID; 0 for an event.
        smid: u16,
        /// The low 32 bits of the frame's address, ReplyFrameAddress.
        address: u32,
    },
    /// An unused entry of the reply post ring: ReplyFlags 0f or ff
    /// (MPI2_DEFAULT_REPLY_DESCRIPTOR).
    Unused {
        /// ReplyFlags, 0f or ff.
        flags: u8,
        /// Any value is read.
        msix: u8,
        /// Any value is read.
        smid: u16,
        /// Any value is read.
        rest: u32,
    },
}

impl ReplyDescriptor {
    /// The layout of a `Success`: 5 rows, 8 bytes.
    pub fn success_layout() -> Layout<5>
        ensures { result ≡ success_layout }
    {
        Layout::new(&SUCCESS_ROWS, 8)
    }

    /// The layout of an `Address`: 4 rows, 8 bytes.
    pub fn address_layout() -> Layout<4>
        ensures { result ≡ address_layout }
    {
        Layout::new(&ADDRESS_ROWS, 8)
    }

    /// The layout of an `Unused`: 4 rows, 8 bytes.
    pub fn unused_layout() -> Layout<4>
        ensures { result ≡ unused_layout }
    {
        Layout::new(&UNUSED_ROWS, 8)
    }

    /// The numbers of a `Success` in its layout's order. They fit their rows.
    pub fn success_values(msix: u8, smid: u16, tag: u16, rest: u16) -> [u64; 5]
        ensures values { result ≡ reply_values (ReplyDescriptor.Success msix smid tag rest) }
        ensures fitting { IsTrue (values_fit success_layout.rows result) }
    {
        [
            0x00,
            u64::from(msix),
            u64::from(smid),
            u64::from(tag),
            u64::from(rest),
        ]
    }

    /// The numbers of an `Address` in its layout's order. They fit their rows.
    pub fn address_values(msix: u8, smid: u16, address: u32) -> [u64; 4]
        ensures values { result ≡ reply_values (ReplyDescriptor.Address msix smid address) }
        ensures fitting { IsTrue (values_fit address_layout.rows result) }
    {
        [0x01, u64::from(msix), u64::from(smid), u64::from(address)]
    }

    /// The numbers of an `Unused` in its layout's order. They fit their rows. The flags are 0f or
    /// ff.
    pub fn unused_values(flags: u8, msix: u8, smid: u16, rest: u32) -> [u64; 4]
        requires { IsTrue (flags == 0x0f || flags == 0xff) }
        ensures values { result ≡ reply_values (ReplyDescriptor.Unused flags msix smid rest) }
        ensures fitting { IsTrue (values_fit unused_layout.rows result) }
    {
        [
            u64::from(flags),
            u64::from(msix),
            u64::from(smid),
            u64::from(rest),
        ]
    }

    // The descriptors whose fields are the low bytes of these numbers.
    fn success_from(values: &[u64; 5]) -> ReplyDescriptor
        requires { IsTrue (values_fit success_layout.rows values.now) }
        ensures layout { layout_of result ≡ success_layout }
        ensures values { reply_values result ≡ cut_from success_layout.rows values.now 0 }
    {
        ReplyDescriptor::Success {
            msix: low!(values[1], 1),
            smid: low!(values[2], 2),
            tag: low!(values[3], 2),
            rest: low!(values[4], 2),
        }
    }

    fn address_from(values: &[u64; 4]) -> ReplyDescriptor
        requires { IsTrue (values_fit address_layout.rows values.now) }
        ensures layout { layout_of result ≡ address_layout }
        ensures values { reply_values result ≡ cut_from address_layout.rows values.now 0 }
    {
        ReplyDescriptor::Address {
            msix: low!(values[1], 1),
            smid: low!(values[2], 2),
            address: low!(values[3], 4),
        }
    }

    fn unused_from(values: &[u64; 4]) -> ReplyDescriptor
        ensures layout { layout_of result ≡ unused_layout }
        ensures values { reply_values result ≡ cut_from unused_layout.rows values.now 0 }
    {
        ReplyDescriptor::Unused {
            flags: low!(values[0], 1),
            msix: low!(values[1], 1),
            smid: low!(values[2], 2),
            rest: low!(values[3], 4),
        }
    }
}

// The first byte, ReplyFlags. No bytes at all are too short for any layout, so they may go as 0.
fn reply_flags(bytes: &[u8]) -> u8
    ensures { result ≡ slice_index bytes.now 0 }
{
    bytes.first().copied().unwrap_or(0)
}

// Reading by one of the layouts.
fn read_success(bytes: &[u8]) -> Result<ReplyDescriptor, Fault>
    ensures { MatchResult result (λ d. ReplyStands d bytes.now)
        (λ fault. first_fault success_layout bytes.now ≡ Some fault) }
{
    let values = read(&ReplyDescriptor::success_layout(), bytes)?;
    Ok(ReplyDescriptor::success_from(&values))
}

fn read_address(bytes: &[u8]) -> Result<ReplyDescriptor, Fault>
    ensures { MatchResult result (λ d. ReplyStands d bytes.now)
        (λ fault. first_fault address_layout bytes.now ≡ Some fault) }
{
    let values = read(&ReplyDescriptor::address_layout(), bytes)?;
    Ok(ReplyDescriptor::address_from(&values))
}

fn read_unused(bytes: &[u8]) -> Result<ReplyDescriptor, Fault>
    ensures { MatchResult result (λ d. ReplyStands d bytes.now)
        (λ fault. first_fault unused_layout bytes.now ≡ Some fault) }
{
    let values = read(&ReplyDescriptor::unused_layout(), bytes)?;
    Ok(ReplyDescriptor::unused_from(&values))
}

/// Reads a reply descriptor from the front of the bytes: the one that they stand for, or their
/// first fault. Bytes past the 8 play no part. What is read may be written again.
///
/// # Errors
/// `Short` exactly where there are fewer than 8 bytes; else `Field` at 0 exactly where ReplyFlags
/// is none of 00, 01, 0f and ff.
pub fn read_reply(bytes: &[u8]) -> Result<ReplyDescriptor, Fault>
    ensures read { MatchResult result (λ d. ReplyStands d bytes.now)
        (λ fault. first_fault reply_layout bytes.now ≡ Some fault) }
    ensures only { (d : ReplyDescriptor) → ReplyStands d bytes.now → result ≡ Ok d }
    ensures flags { IfOk result HasItsFlags }
{
    match reply_flags(bytes) {
        0x00 => read_success(bytes),
        0x01 => read_address(bytes),
        _ => read_unused(bytes),
    }
}

/// The descriptor's 8 bytes, from which `read_reply` reads it back. An `Unused` has the flags 0f or
/// ff.
pub fn write_reply(d: &ReplyDescriptor) -> [u8; 8]
    requires { HasItsFlags d.now }
    ensures { ReplyStands d.now result }
{
    match *d {
        ReplyDescriptor::Success {
            msix,
            smid,
            tag,
            rest,
        } => bytes_of(
            &ReplyDescriptor::success_layout(),
            &ReplyDescriptor::success_values(msix, smid, tag, rest),
        ),
        ReplyDescriptor::Address {
            msix,
            smid,
            address,
        } => bytes_of(
            &ReplyDescriptor::address_layout(),
            &ReplyDescriptor::address_values(msix, smid, address),
        ),
        ReplyDescriptor::Unused {
            flags,
            msix,
            smid,
            rest,
        } => bytes_of(
            &ReplyDescriptor::unused_layout(),
            &ReplyDescriptor::unused_values(flags, msix, smid, rest),
        ),
    }
}
