//! A controller and a fabric, as C asks for them.
ghost use Rattle.std.specs.Prelude.{◌≡◌, ◌≤◌, IfErr, IfOk, length, map, true};
ghost use Rattle.std.specs.List.{list_all};
ghost use Rattle.mpt_c_calls.specs.Making.{IsNewFabric, IsNewIoc, MakesNoFabric, MakesNoIoc, has_block_count, is_block_count, zero_disk_of};

use ioc_core::Ioc;
use mpt_c_messages::CallCode;
use mpt_rules::OutOfMemory;
use sas_fabric::{Fabric, FabricFault};
use scsi_disk::Disk;
use std::alloc::Global;
use std::mem::size_of;

/// A disk (mpt.h, `mpt_disk`).
#[repr(C)]
#[derive(Clone, Copy, Debug, PartialEq, Eq)]
pub struct DiskWords {
    /// Its SAS address.
    pub address: u64,
    /// Its blocks of 512 bytes, from 1 to 1,024.
    pub blocks: u16,
}

// C has the same layout: mpt.h asserts it too.
const _: () = prove!(size_of::<DiskWords>() == 16);

/// A controller in the state READY with an expander with so many phys for each number, and so many reply queues.
///
/// # Errors
/// NoSuch exactly where there are more than 16 expanders, or not from 1 to 8 queues; NoMemory.
pub fn make_ioc(alloc: Global, phys: &[u8], queues: u8) -> Result<Ioc, CallCode>
    ensures made { IfOk result (IsNewIoc phys.now queues) }
    ensures refused { IfErr result (MakesNoIoc phys.now queues) }
{
    if phys.len() > 16 || queues < 1 || queues > 8 {
        return Err(CallCode::NoSuch);
    }
    match ioc_with(alloc, phys, queues) {
        Ok(ioc) => Ok(ioc),
        Err(_) => Err(CallCode::NoMemory),
    }
}

fn ioc_with(alloc: Global, phys: &[u8], queues: u8) -> Result<Ioc, OutOfMemory>
    requires expanders { length phys.now ≤ 16 }
    requires least { 1 ≤ queues }
    requires most { queues ≤ 8 }
    ensures { IfOk result (IsNewIoc phys.now queues) }
{
    let mut counts = Vec::new(alloc);
    counts.extend_from_slice(phys)?;
    Ioc::with_queues(alloc, counts, queues)
}

/// A fabric that is off, with these disks of zeros, none of which is plugged, and an expander with so many phys for each
/// number.
///
/// # Errors
/// Refused where a disk has other than 1 to 1,024 blocks, where there are more than 64 disks or two of one address, or
/// more than 16 expanders or one without phys or with more than 22; NoMemory.
pub fn make_fabric(alloc: Global, disks: &[DiskWords], phys: &[u8]) -> Result<Fabric, CallCode>
    ensures made { IfOk result (IsNewFabric disks.now phys.now) }
    ensures refused { IfErr result MakesNoFabric }
{
    if !have_block_counts(disks) {
        return Err(CallCode::Refused);
    }
    match new_fabric(alloc, disks, phys) {
        Ok(fabric) => Ok(fabric),
        Err(FabricFault::OutOfMemory) => Err(CallCode::NoMemory),
        Err(_) => Err(CallCode::Refused),
    }
}

fn new_fabric(alloc: Global, disks: &[DiskWords], phys: &[u8]) -> Result<Fabric, FabricFault>
    requires { list_all has_block_count disks.now ≡ true }
    ensures { IfOk result (IsNewFabric disks.now phys.now) }
{
    Fabric::new(alloc, make_disks(alloc, disks)?, phys.to_vec(alloc)?)
}

// Whether each disk may have so many blocks.
fn have_block_counts(disks: &[DiskWords]) -> bool
    ensures { result ≡ list_all has_block_count disks.now }
{
    disks.iter().all(|disk| is_block_number(disk.blocks))
}

// Whether a disk may have so many blocks.
fn is_block_number(blocks: u16) -> bool
    ensures { result ≡ is_block_count blocks }
{
    1 <= blocks && blocks <= 1024
}

// The disks of zeros.
fn make_disks(alloc: Global, specs: &[DiskWords]) -> Result<Vec<Disk>, OutOfMemory>
    requires { list_all has_block_count specs.now ≡ true }
    ensures { IfOk result (λ made. made.items ≡ map zero_disk_of specs.now) }
{
    let mut disks = Vec::new(alloc);
    for spec in specs {
        disks.push(Disk::new(alloc, spec.address, spec.blocks)?)?;
    }
    Ok(disks)
}
