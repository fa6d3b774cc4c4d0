//! The three parties, the lanes between them, and the trace.
ghost use Rattle.std.specs.Prelude.{◌≡◌, ◌≤◌, IfOk, OnErr, OnOk, length};
ghost use Rattle.mpt_system.specs.Parties.{IsWritten, whole_of};
ghost use Rattle.mpt_system.specs.Whole.{Stays, written};
ghost use Rattle.mpt_system.specs.Making.{joined};

use crate::told::{write_host_told, write_ioc_told};
use crate::up_lanes::UpLanes;
use host_core::Host;
use ioc_core::Ioc;
use mpt_rules::OutOfMemory;
use mpt_trace::{Back, Down, Out, Trace};
use sas_fabric::Fabric;
use std::alloc::Global;
use std::collections::VecDeque;

/// The three parties, the lanes between them, and the trace of what happened.
///
/// What the host and the controller tell goes into the trace before the next thing happens.
#[derive(Drop)]
pub struct Parties {
    pub(crate) alloc: Global,
    pub(crate) host: Host,
    pub(crate) ioc: Ioc,
    pub(crate) fabric: Fabric,
    pub(crate) down: VecDeque<Down>,
    pub(crate) up: UpLanes,
    pub(crate) out: VecDeque<Out>,
    pub(crate) back: VecDeque<Back>,
    pub(crate) trace: Trace,
}

impl Parties {
    /// The parties as they are made, with so many reply queues, nothing on a lane and no entry; or
    /// OutOfMemory.
    pub(crate) fn new(
        alloc: Global,
        fabric: Fabric,
        phys: &[u8],
        queues: u8,
    ) -> Result<Parties, OutOfMemory>
        requires expanders { length phys.now ≤ 16 }
        requires queues { (1 ≤ queues) × (queues ≤ 8) }
        ensures { IfOk result (λ made. whole_of made ≡ joined fabric phys.now queues) }
    {
        let host = Host::with_queues(alloc, queues)?;
        let ioc = Ioc::with_queues(alloc, phys.to_vec(alloc)?, queues)?;
        let up = UpLanes::new(alloc, queues)?;
        Ok(Parties {
            alloc,
            host,
            ioc,
            fabric,
            down: VecDeque::new(alloc),
            up,
            out: VecDeque::new(alloc),
            back: VecDeque::new(alloc),
            trace: Trace::new(alloc),
        })
    }

    /// What the host and the controller told is written behind the trace. Where memory is wanting the
    /// rest of it stays with them.
    pub(crate) fn write_told(&mut self) -> Result<(), OutOfMemory>
        ensures ok { OnOk result (whole_of self.new ≡ written (whole_of self.old)) }
        ensures written { OnOk result (IsWritten self.new) }
        ensures stays { OnErr result (Stays (whole_of self.old) (whole_of self.new)) }
    {
        write_host_told(&mut self.host, &mut self.trace)?;
        write_ioc_told(&mut self.ioc, &mut self.trace)
    }
}
