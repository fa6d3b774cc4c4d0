//! The whole, as it is made.
ghost use Rattle.std.specs.Prelude.{◌≡◌, ◌≤◌, IfErr, IfOk, None, OnOk};
ghost use Rattle.mpt_system.specs.Making.{IsCause, made_of, system_refusal};

use crate::faults::SystemFault;
use crate::making::{MAX_DISKS, addresses_fit, have_fit_blocks, make_disks};
use crate::parties::Parties;
use mpt_trace::DiskSpec;
use sas_fabric::Fabric;
use std::alloc::Global;
use std::marker::Model;

/// The whole: the host, the controller, the fabric, the lanes between them, and the trace of what
/// happened. A contract sees the world of the rules, all that was told so far, and what of it isn't in
/// the trace yet because memory was wanting. Some list of cases leads there, and told that.
#[derive(Drop)]
pub struct System {
    pub(crate) parties: Parties,
    // As they were declared.
    pub(crate) disks: Vec<DiskSpec>,
}

impl Model for System {
    ghost use Rattle.std.specs.Coded.{codes};
    ghost use Rattle.std.specs.FinMap as map;
    ghost use Rattle.std.specs.FinSet as set;
    ghost use Rattle.mpt_system.specs.Parties.{whole_of};
    ghost use Rattle.mpt_system.specs.Reached.{IsReached};
    ghost use Rattle.mpt_system.specs.Whole.{Whole};

    ghost Value = { Whole };

    ghost coded = { Prim.hlevel (codes, map.code, set.code) };

    ghost view = { λ s. whole_of s.parties };

    ghost invariant = { λ s. let whole = whole_of s.parties in IsReached s.disks.items whole.world whole.entries };
}

impl System {
    /// A system of these disks, none of which is plugged, and of an expander with so many phys for each
    /// number, with one reply queue. Nothing has happened.
    ///
    /// # Errors
    /// The first cause that holds, in the order of `SystemFault`; or OutOfMemory.
    pub fn new(alloc: Global, disks: &[DiskSpec], phys: &[u8]) -> Result<System, SystemFault>
        ensures made { IfOk result (λ made. made ≡ made_of disks.now phys.now 1) }
        ensures fit { OnOk result (system_refusal disks.now phys.now ≡ None) }
        ensures refused { IfErr result (IsCause (system_refusal disks.now phys.now)) }
    {
        System::with_queues(alloc, disks, phys, 1)
    }

    /// The same with so many reply queues, from 1 to 8.
    ///
    /// # Errors
    /// As `new`.
    pub fn with_queues(
        alloc: Global,
        disks: &[DiskSpec],
        phys: &[u8],
        queues: u8,
    ) -> Result<System, SystemFault>
        requires { (1 ≤ queues) × (queues ≤ 8) }
        ensures made { IfOk result (λ made. made ≡ made_of disks.now phys.now queues) }
        ensures fit { OnOk result (system_refusal disks.now phys.now ≡ None) }
        ensures refused { IfErr result (IsCause (system_refusal disks.now phys.now)) }
    {
        if !have_fit_blocks(disks) {
            return Err(SystemFault::BadBlocks);
        }
        // Before the disks are made, which may take much memory.
        if disks.len() > MAX_DISKS {
            return Err(SystemFault::TooManyDisks);
        }
        addresses_fit(disks);
        let declared = disks.to_vec(alloc)?;
        let fabric = Fabric::new(alloc, make_disks(alloc, disks)?, phys.to_vec(alloc)?)?;
        let parties = Parties::new(alloc, fabric, phys, queues)?;
        Ok(System {
            parties,
            disks: declared,
        })
    }
}
