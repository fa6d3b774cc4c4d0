//! A disk of the machine.
ghost use Rattle.std.specs.Prelude.{◌≡◌, ◌≤◌, IfOk, IsTrue, length};
ghost use Rattle.mpt_wire.specs.Machine.Reports.{byte_sum};
ghost use Rattle.mpt_wire.specs.Machine.State.{zero_disk};
ghost use Rattle.scsi_disk.specs.Performed.{performed};
ghost use Rattle.disk_machine.specs.Machine.{IsDiskSize, seen_disk, seen_traced};

use mpt_trace::{DiskSpec, OutOfMemory};
use scsi_disk::{Command, Disk, Room, perform};
use std::alloc::Global;

/// A disk with its bytes, and the expander and the phy where it is plugged.
#[derive(Drop)]
pub(crate) struct TracedDisk {
    pub(crate) disk: Disk,
    pub(crate) at: Option<(u8, u8)>,
}

impl TracedDisk {
    // A disk of zeros that isn't plugged.
    pub(crate) fn new(alloc: Global, spec: DiskSpec) -> Result<TracedDisk, OutOfMemory>
        requires { IsDiskSize spec }
        ensures { IfOk result (λ disk. seen_traced disk ≡ seen_disk (zero_disk spec)) }
    {
        let disk = Disk::new(alloc, spec.address, spec.blocks)?;
        Ok(TracedDisk { disk, at: None })
    }

    // Carries out a command.
    pub(crate) fn perform(&mut self, command: &Command, room: &mut Room)
        requires { IsTrue room.old.is_full }
        ensures bytes { self.new.disk.bytes ≡ (performed self.old.disk.bytes command.now).bytes }
        ensures at { self.new.at ≡ self.old.at }
    {
        let _ = perform(&mut self.disk, command, room);
    }
    // The sum over its bytes of (place + 1) times the byte.
    pub(crate) fn sum(&self) -> u64
        ensures { result ≡ byte_sum self.now.disk.bytes }
    {
        sum_of(self.disk.bytes())
    }
}

// The sum over bytes of (place + 1) times the byte, with places from 0.
fn sum_of(bytes: &[u8]) -> u64
    requires { length bytes.now ≤ 524288 }
    ensures { result ≡ byte_sum bytes.now }
{
    let mut sum = 0;
    for (place, byte) in bytes.iter().enumerate() {
        sum += (place as u64 + 1) * u64::from(*byte);
    }
    sum
}
