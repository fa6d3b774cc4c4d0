//! What a system is made of.
ghost use Rattle.std.specs.Prelude.{◌≡◌, ◌≤◌, ◌<◌, ◌^◌, All, IfOk, length, map, true};
ghost use Rattle.std.specs.List.{list_all};
ghost use Rattle.mpt_trace.specs.declared.disk_spec.DiskSpec.{DiskSpec};
ghost use Rattle.sas_fabric.specs.Making.{zero_disk};
ghost use Rattle.mpt_system.specs.Making.{has_fit_blocks, is_fit_count};

use mpt_rules::OutOfMemory;
use mpt_trace::DiskSpec;
use scsi_disk::Disk;
use std::alloc::Global;

/// The most blocks that a disk has.
pub const MAX_BLOCKS: u16 = 1024;

/// The most disks that there are.
pub const MAX_DISKS: usize = 64;

/// Whether each disk may have so many blocks.
pub fn have_fit_blocks(disks: &[DiskSpec]) -> bool
    ensures { result ≡ list_all has_fit_blocks disks.now }
{
    disks.iter().all(|disk| is_fit(disk.blocks))
}

// Whether a disk may have so many blocks.
fn is_fit(blocks: u16) -> bool
    ensures { result ≡ is_fit_count blocks }
{
    1 <= blocks && blocks <= MAX_BLOCKS
}

/// The disks of zeros, as they are declared; or OutOfMemory.
pub fn make_disks(alloc: Global, specs: &[DiskSpec]) -> Result<Vec<Disk>, OutOfMemory>
    requires { list_all has_fit_blocks specs.now ≡ true }
    ensures { IfOk result (λ made. made.items ≡ map zero_disk specs.now) }
{
    let mut disks = Vec::new(alloc);
    for spec in specs {
        disks.push(Disk::new(alloc, spec.address, spec.blocks)?)?;
    }
    Ok(disks)
}

/// The addresses of the disks are as great as their type allows at most. It changes nothing.
pub fn addresses_fit(disks: &[DiskSpec])
    ensures { All (λ (d : DiskSpec). d.address < 256 ^ 8) disks.now }
{
    for disk in disks {
        address_fits(disk);
    }
}

fn address_fits(disk: &DiskSpec)
    ensures { disk.now.address < 256 ^ 8 }
{
    let _address = disk.address;
}
