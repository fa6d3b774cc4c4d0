//! The parties as a session begins.
ghost use Rattle.std.specs.Prelude.{◌≡◌, All, IfOk, map};
ghost use Rattle.mpt_trace.specs.declared.disk_spec.DiskSpec.{DiskSpec};
ghost use Rattle.mpt_rules.specs.Fabric.Parts.{new_fabric as fabric_of};
ghost use Rattle.mpt_rules.specs.World.Settings.{IsFromTo, IsSetting};
ghost use Rattle.sas_fabric.specs.Making.{zero_disk};
ghost use Rattle.law_plans.specs.Limits.{plan_setting};
ghost use Rattle.live_session.specs.Begun.{AreFirst};

use host_core::Host;
use ioc_core::Ioc;
use mpt_journal::OutOfMemory;
use mpt_script::Plan;
use mpt_trace::DiskSpec;
use sas_fabric::{Fabric, FabricFault};
use scsi_disk::Disk;
use std::alloc::Global;

/// The host, the controller and the fabric.
#[derive(Drop)]
pub(crate) struct Cores {
    pub(crate) host: Host,
    pub(crate) ioc: Ioc,
    pub(crate) fabric: Fabric,
}

impl Cores {
    /// The parties of a plan as they begin; or OutOfMemory.
    pub(crate) fn new(alloc: Global, plan: &Plan) -> Result<Cores, OutOfMemory>
        requires { IsSetting (plan_setting plan.now) }
        ensures { IfOk result (λ cores. AreFirst (plan_setting plan.now) cores) }
    {
        let host = Host::with_queues(alloc, plan.queues())?;
        let ioc = Ioc::with_queues(alloc, plan.phys().to_vec(alloc)?, plan.queues())?;
        let fabric = new_fabric(alloc, plan)?;
        Ok(Cores { host, ioc, fabric })
    }
}

// The fabric of a plan, with its disks of zeros; or OutOfMemory.
fn new_fabric(alloc: Global, plan: &Plan) -> Result<Fabric, OutOfMemory>
    requires { IsSetting (plan_setting plan.now) }
    ensures { IfOk result (λ fabric. fabric ≡ fabric_of plan.now.disks plan.now.phys) }
{
    let disks = zero_disks(alloc, plan.disks())?;
    match Fabric::new(alloc, disks, plan.phys().to_vec(alloc)?) {
        Ok(fabric) => Ok(fabric),
        Err(fault) => match fault {
            FabricFault::OutOfMemory => Err(OutOfMemory),
            // What is within the limits isn't refused.
            _ => unreachable!(),
        },
    }
}

// The disks of zeros, as they are declared; or OutOfMemory.
fn zero_disks(alloc: Global, specs: &[DiskSpec]) -> Result<Vec<Disk>, OutOfMemory>
    requires { All (λ (d : DiskSpec). IsFromTo 1 1024 d.blocks) specs.now }
    ensures { IfOk result (λ made. made.items ≡ map zero_disk specs.now) }
{
    let mut disks = Vec::new(alloc);
    for spec in specs {
        disks.push(Disk::new(alloc, spec.address, spec.blocks)?)?;
    }
    Ok(disks)
}
