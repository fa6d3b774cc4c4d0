//! Work that touches no lane.
ghost use Rattle.mpt_rules.specs.Fabric.Calls.{announces, runs};
ghost use Rattle.mpt_rules.specs.Ioc.Takes.{steps_high, steps_normal};
ghost use Rattle.mpt_rules.specs.World.Moves.{fabric_runs, fabric_says, ioc_works};
ghost use Rattle.mpt_system.specs.Parties.{IsWritten, whole_of, world_of};
ghost use Rattle.mpt_system.specs.Steps.{HasTried};

use crate::parties::Parties;
use mpt_rules::OutOfMemory;
use mpt_trace::{Entry, Tag};
use sas_fabric::{AnnounceFault, RunFault};

// False exactly where there is nothing to do. Where memory is wanting, nothing changes, or the step was
// made and what is told of it isn't all in the trace yet.
impl Parties {
    /// The controller processes the next post of its high queue.
    pub(crate) fn step_high(&mut self) -> Result<bool, OutOfMemory>
        requires { IsWritten self.old }
        ensures { HasTried (whole_of self.old) (ioc_works (world_of self.old) (steps_high self.old.ioc.part)) result (whole_of self.new) }
    {
        let worked = self.ioc.step_high()?;
        self.write_told()?;
        Ok(worked)
    }

    /// The controller processes the next post of its normal queue.
    pub(crate) fn step_normal(&mut self) -> Result<bool, OutOfMemory>
        requires { IsWritten self.old }
        ensures { HasTried (whole_of self.old) (ioc_works (world_of self.old) (steps_normal self.old.ioc.part)) result (whole_of self.new) }
    {
        let worked = self.ioc.step_normal()?;
        self.write_told()?;
        Ok(worked)
    }

    /// The fabric tells its first notice.
    pub(crate) fn announce(&mut self) -> Result<bool, OutOfMemory>
        requires { IsWritten self.old }
        ensures { HasTried (whole_of self.old) (fabric_says (world_of self.old) (announces self.old.fabric)) result (whole_of self.new) }
    {
        match self.fabric.announce() {
            Ok(()) => Ok(true),
            Err(AnnounceFault::NoNotice) => Ok(false),
            Err(AnnounceFault::OutOfMemory) => Err(OutOfMemory),
        }
    }

    /// The fabric performs the task of a tag.
    pub(crate) fn run(&mut self, tag: Tag) -> Result<bool, OutOfMemory>
        requires { IsWritten self.old }
        ensures { HasTried (whole_of self.old) (fabric_runs (world_of self.old) tag (runs self.old.fabric tag)) result (whole_of self.new) }
    {
        self.trace.reserve(1)?;
        match self.fabric.run(tag) {
            Ok(address) => {
                self.trace.push(Entry::Run { address, tag }).unwrap();
                Ok(true)
            }
            Err(RunFault::NoTask) => Ok(false),
            Err(RunFault::OutOfMemory) => Err(OutOfMemory),
        }
    }
}
