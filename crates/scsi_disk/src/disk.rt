//! Disks.
ghost use Rattle.std.specs.Prelude.{◌≡◌, ◌≤◌, ◌+◌, ◌*◌, IfOk, length, replicate};
ghost use Rattle.scsi_disk.specs.Disk.{IsWholeDisk, block_count, bytes_from, is_in_range, with_data};
ghost use Rattle.scsi_disk.specs.Performed.{capacity_data as capacity_data_of};

use crate::operation::Transfer;
use crate::out_of_memory::OutOfMemory;
use byteorder::{BigEndian, ByteOrder};
use mpi_names::Address;
use std::alloc::Global;
use std::marker::Model;

/// The length of a block, in bytes.
pub const BLOCK_LEN: usize = 512;

/// A disk of 1 to 1,024 blocks of 512 bytes. A contract sees its address and its bytes.
#[derive(Drop)]
pub struct Disk {
    address: Address,
    bytes: Vec<u8>,
}

impl Model for Disk {
    ghost use Rattle.scsi_disk.specs.Disk.{Disk, IsWholeDisk};

    ghost Value = { Disk };

    ghost view = { λ d. record { address = d.address; bytes = d.bytes.items } };

    ghost invariant = { λ d. IsWholeDisk d.bytes.items };
}

impl Disk {
    /// A disk of these many blocks, from 1 to 1,024, that are all zero; or OutOfMemory.
    pub fn new(alloc: Global, address: Address, blocks: u16) -> Result<Disk, OutOfMemory>
        requires some_block { 1 ≤ blocks }
        requires at_most { blocks ≤ 1024 }
        ensures { IfOk result (λ disk. disk ≡ record { address = address; bytes = replicate (512 * blocks) 0 }) }
    {
        let len = BLOCK_LEN * blocks as usize;
        let bytes = vec![in alloc; 0; len]?;
        Ok(Disk { address, bytes })
    }

    /// The SAS address.
    pub fn address(&self) -> Address
        ensures { result ≡ self.now.address }
    {
        self.address
    }

    /// All bytes, in order.
    pub fn bytes(&self) -> &[u8]
        ensures value { result.now ≡ self.now.bytes }
        ensures whole { IsWholeDisk self.now.bytes }
    {
        &self.bytes
    }

    /// The number of blocks.
    pub fn blocks(&self) -> u16
        ensures value { result ≡ block_count self.now.bytes }
        ensures whole { IsWholeDisk self.now.bytes }
    {
        (self.bytes.len() / BLOCK_LEN) as u16
    }

    // Whether the transfer ends within the disk.
    pub(crate) fn contains(&self, transfer: Transfer) -> bool
        ensures value { result ≡ is_in_range self.now.bytes transfer }
        ensures whole { IsWholeDisk self.now.bytes }
    {
        let count = u64::from(self.blocks());
        transfer.address <= count && u64::from(transfer.blocks) <= count - transfer.address
    }

    // READ CAPACITY(10) data (SBC-3): RETURNED LOGICAL BLOCK ADDRESS and BLOCK LENGTH IN BYTES.
    pub(crate) fn capacity_data(&self) -> [u8; 8]
        ensures { result ≡ capacity_data_of self.now.bytes }
    {
        let mut data = [0; 8];
        BigEndian::write_u32(&mut data, u32::from(self.blocks() - 1));
        BigEndian::write_u32(&mut data[4..], BLOCK_LEN as u32);
        data
    }

    // These many bytes from a block on.
    pub(crate) fn bytes_from(&self, block: u64, count: usize) -> &[u8]
        requires { 512 * block + count ≤ length self.now.bytes }
        ensures value { result.now ≡ bytes_from block count self.now.bytes }
        ensures len { length result.now ≡ count }
    {
        let bytes = &self.bytes;
        let start = BLOCK_LEN * block as usize;
        &bytes[start..start + count]
    }

    // Writes this data from a block on.
    pub(crate) fn write(&mut self, block: u64, content: &[u8])
        requires { 512 * block + length content.now ≤ length self.old.bytes }
        ensures { self.new ≡ record self.old { bytes = with_data block content.now self.old.bytes } }
    {
        let bytes = &mut self.bytes;
        let start = BLOCK_LEN * block as usize;
        bytes[start..start + content.len()].copy_from_slice(content);
    }
}
