//! What the parts say of themselves at the end of a report.
ghost use Rattle.std.specs.Prelude.{◌≡◌, ◌++◌, [], ◌∷◌, Bool, List, length};
ghost use Rattle.removal.specs.declared.phase.Phase.{Phase};
ghost use Rattle.disk_machine.specs.Summary.{parts_with};
ghost use Rattle.mpt_rules.specs.World.Drain.{world_quiet};
ghost use Rattle.mpt_system.specs.Phases.{HasRoomForOne};

use crate::system::System;
use disk_machine::PartsSummary;
use host_core::Host;
use removal::{FIRST_HANDLE, Phase};

/// How many handles there are.
const HANDLES: u16 = 64;

impl System {
    /// What the summary that ends a report takes from the parts as they are: how many handles the host
    /// reads, has waiting, resets and removes, and whether all is quiet.
    pub fn parts_summary(&self) -> PartsSummary
        ensures { result ≡ parts_with self.now.world.host.phases (world_quiet self.now.world) }
    {
        phases_summary(&self.parties.host, self.parties.is_quiet())
    }
}

/// The same of a host, where all is quiet or not. The host has a phase for each of the 64 handles, as
/// every host that is made has, and as each step of a system keeps it.
pub fn phases_summary(host: &Host, quiet: bool) -> PartsSummary
    requires { length host.now.host.phases ≡ HANDLES }
    ensures { result ≡ parts_with host.now.host.phases quiet }
{
    let mut parts = PartsSummary {
        reading: 0,
        waiting: 0,
        resetting: 0,
        removing: 0,
        quiet,
    };
    for place in 0..HANDLES {
        add_handle(&mut parts, host.phase(FIRST_HANDLE + place));
    }
    parts
}

// One handle more is in this phase.
fn add_handle(parts: &mut PartsSummary, phase: Phase)
    requires { HasRoomForOne parts.old }
    ensures { (phases : List Phase) (quiet : Bool) → parts.old ≡ parts_with phases quiet → parts.new ≡ parts_with (phases ++ phase ∷ []) quiet }
{
    match phase {
        Phase::Absent | Phase::Ready(_) => {}
        Phase::Reading(_) => parts.reading += 1,
        Phase::WaitRead | Phase::WaitHigh | Phase::WaitInternal => parts.waiting += 1,
        Phase::Resetting(_) => parts.resetting += 1,
        Phase::Removing(_) => parts.removing += 1,
    }
}
