//! The device server of a disk: it carries out commands.
ghost use Rattle.std.specs.Prelude.{◌≡◌, ◌≤◌, IsTrue, false, length, take};
ghost use Rattle.scsi_disk.specs.Performed.{inquiry_result, performed, read_result, write_outcome};

use crate::buffers::Buffers;
use crate::bytes::Bytes;
use crate::command::Command;
use crate::disk::{BLOCK_LEN, Disk};
use crate::inquiry::inquiry_data;
use crate::operation::{Operation, Transfer};
use crate::room::Room;
use crate::scsi_result::ScsiResult;
use crate::sense::AdditionalSense;

/// Carries out a command. The result fills the buffers of `room`, which has to be full and is empty
/// afterwards; no memory is taken.
///
/// CHECK CONDITION comes, in this order, for a logical unit that isn't 0 (LOGICAL UNIT NOT
/// SUPPORTED), for an OPERATION CODE that the disks don't know (INVALID COMMAND OPERATION CODE), for
/// an INQUIRY whose byte 1 isn't 0 (INVALID FIELD IN CDB), for a READ or WRITE that ends past the
/// last block (LOGICAL BLOCK ADDRESS OUT OF RANGE), and for a WRITE whose data isn't as long as its
/// blocks (INVALID FIELD IN CDB). It leaves the disk as it was.
pub fn perform(disk: &mut Disk, command: &Command, room: &mut Room) -> ScsiResult
    requires { IsTrue room.old.is_full }
    ensures disk { disk.new ≡ record disk.old { bytes = (performed disk.old.bytes command.now).bytes } }
    ensures result { result ≡ (performed disk.old.bytes command.now).result }
    ensures room { room.new ≡ record { is_full = false } }
{
    let buffers = room.take();
    if command.lun != 0 {
        return buffers.check_condition(AdditionalSense::LogicalUnitNotSupported);
    }
    match Operation::decode(&command.cdb) {
        None => buffers.check_condition(AdditionalSense::InvalidOperationCode),
        Some(Operation::TestUnitReady) => buffers.good(&[]),
        Some(Operation::Inquiry { evpd_byte, .. }) => inquire(buffers, evpd_byte, command.len),
        Some(Operation::ReadCapacity) => buffers.good(first(&disk.capacity_data(), command.len)),
        Some(Operation::Read(transfer)) => read(disk, transfer, command.len, buffers),
        Some(Operation::Write(transfer)) => {
            write(disk, transfer, command.payload.as_slice(), buffers)
        }
    }
}

// INQUIRY: the first `len` bytes of the standard data.
fn inquire(buffers: Buffers, evpd_byte: u8, len: u32) -> ScsiResult
    ensures { result ≡ inquiry_result evpd_byte len }
{
    if evpd_byte == 0 {
        buffers.good(first(inquiry_data(), len))
    } else {
        buffers.check_condition(AdditionalSense::InvalidFieldInCdb)
    }
}

// READ(10) and READ(16): the blocks, at most `len` bytes and at most what a result holds.
fn read(disk: &Disk, transfer: Transfer, len: u32, buffers: Buffers) -> ScsiResult
    ensures { result ≡ read_result disk.now.bytes len transfer }
{
    if !disk.contains(transfer) {
        return buffers.check_condition(AdditionalSense::BlockAddressOutOfRange);
    }
    let count = (len as usize)
        .min(Bytes::MAX_LEN)
        .min(BLOCK_LEN * transfer.blocks as usize);
    buffers.good(disk.bytes_from(transfer.address, count))
}

// WRITE(10) and WRITE(16): the blocks hold the data.
fn write(disk: &mut Disk, transfer: Transfer, content: &[u8], buffers: Buffers) -> ScsiResult
    ensures disk { disk.new ≡ record disk.old { bytes = (write_outcome disk.old.bytes content.now transfer).bytes } }
    ensures result { result ≡ (write_outcome disk.old.bytes content.now transfer).result }
{
    if !disk.contains(transfer) {
        return buffers.check_condition(AdditionalSense::BlockAddressOutOfRange);
    }
    if content.len() != BLOCK_LEN * transfer.blocks as usize {
        return buffers.check_condition(AdditionalSense::InvalidFieldInCdb);
    }
    disk.write(transfer.address, content);
    buffers.good(&[])
}

// The first `len` bytes, or all if there are fewer.
fn first(bytes: &[u8], len: u32) -> &[u8]
    ensures value { result.now ≡ take len bytes.now }
    ensures bound { length result.now ≤ length bytes.now }
{
    &bytes[..bytes.len().min(len as usize)]
}
