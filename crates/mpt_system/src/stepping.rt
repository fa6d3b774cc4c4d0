//! Chosen steps.
ghost use Rattle.mpt_rules.specs.World.Moves.{moves};
ghost use Rattle.mpt_system.specs.Parties.{HasLanes, IsWritten, whole_of, world_of};
ghost use Rattle.mpt_system.specs.Steps.{HasStepped, HasTried};

use crate::faults::StepFault;
use crate::parties::Parties;
use crate::system::System;
use mpt_rules::OutOfMemory;
use mpt_trace::{Choice, Entry};

/// A chosen step found something to do, and did it.
#[derive(Clone, Copy, Debug, PartialEq, Eq)]
pub struct Moved;

impl System {
    /// Makes a chosen step: its case happens.
    ///
    /// # Errors
    /// Idle exactly where the choice has nothing to take, and that is entered. After OutOfMemory either
    /// nothing has happened, or the whole case has, and the last of its entries are pending: they are
    /// written by the next call.
    pub fn step(&mut self, choice: Choice) -> Result<Moved, StepFault>
        ensures { HasStepped self.old choice result self.new }
    {
        self.parties.write_told()?;
        self.parties.make_step(choice)
    }

    /// Makes a chosen step where it has something to take, and answers whether it had.
    pub(crate) fn try_step(&mut self, choice: Choice) -> Result<bool, OutOfMemory>
        ensures { HasTried self.old (moves self.old.world choice) result self.new }
    {
        self.parties.write_told()?;
        self.parties.take_step(choice)
    }
}

impl Parties {
    // The chosen step; where it has nothing to take, that is entered.
    fn make_step(&mut self, choice: Choice) -> Result<Moved, StepFault>
        requires written { IsWritten self.old }
        requires lanes { HasLanes (world_of self.old) }
        ensures { HasStepped (whole_of self.old) choice result (whole_of self.new) }
    {
        if self.take_step(choice)? {
            return Ok(Moved);
        }
        self.trace.push(Entry::Idle(choice))?;
        Err(StepFault::Idle)
    }

    // The chosen step, and whether it had something to take.
    fn take_step(&mut self, choice: Choice) -> Result<bool, OutOfMemory>
        requires written { IsWritten self.old }
        requires lanes { HasLanes (world_of self.old) }
        ensures { HasTried (whole_of self.old) (moves (world_of self.old) choice) result (whole_of self.new) }
    {
        match choice {
            Choice::HostPut => self.put_down(),
            Choice::HostTake => self.take_up(0),
            Choice::IocTake => self.take_down(),
            Choice::IocHigh => self.step_high(),
            Choice::IocNormal => self.step_normal(),
            Choice::IocOut => self.put_out(),
            Choice::IocBack => self.take_back(),
            Choice::IocPut => self.put_up(0),
            Choice::FabricTake => self.take_out(),
            Choice::FabricSay => self.announce(),
            Choice::FabricPut => self.put_back(),
            Choice::FabricRun(tag) => self.run(tag),
            // Queue 0 has choices of its own.
            Choice::HostTakeOn(0) | Choice::IocPutOn(0) => Ok(false),
            Choice::HostTakeOn(queue) => self.take_up(queue),
            Choice::IocPutOn(queue) => self.put_up(queue),
        }
    }
}
