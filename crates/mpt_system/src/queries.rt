//! What a system is asked.
ghost use Rattle.std.specs.Prelude.{◌≡◌, ◌++◌};
ghost use Rattle.mpt_rules.specs.Ioc.Places.{is_empty};
ghost use Rattle.mpt_rules.specs.World.Drain.{lanes_empty, world_quiet};
ghost use Rattle.mpt_system.specs.Parties.{world_of};

use crate::parties::Parties;
use crate::system::System;
use mpt_trace::Trace;

impl System {
    /// Whether nothing is on a lane or in an outbox, queue or list of what waits, and the host waits for
    /// nothing.
    pub fn quiet(&self) -> bool
        ensures { result ≡ world_quiet self.now.world }
    {
        self.parties.is_quiet()
    }

    /// The trace of what happened. Where memory was wanting the last entries may be pending; the next
    /// call writes them.
    pub fn trace(&self) -> &Trace
        ensures { self.now.entries ≡ result.now.entries ++ self.now.pending }
    {
        &self.parties.trace
    }
}

impl Parties {
    /// Whether the world is quiet.
    pub(crate) fn is_quiet(&self) -> bool
        ensures { result ≡ world_quiet (world_of self.now) }
    {
        self.has_empty_lanes()
            && self.has_nothing_to_put()
            && !self.host.waits()
            && self.ioc.quiet()
            && self.fabric.quiet()
    }

    // Whether nothing is on a lane.
    fn has_empty_lanes(&self) -> bool
        ensures { result ≡ lanes_empty (world_of self.now) }
    {
        self.down.is_empty() && self.up.is_empty() && self.out.is_empty() && self.back.is_empty()
    }

    // Whether the host has nothing to put.
    fn has_nothing_to_put(&self) -> bool
        ensures { result ≡ is_empty self.now.host.host.out }
    {
        self.host.front_down().is_none()
    }
}
