//! Rounds of a drain.
ghost use Rattle.std.specs.Prelude.{◌≡◌, ◌++◌, [], ◌∷◌, length, map};
ghost use Rattle.mpt_trace.specs.declared.choice.Choice.TheVariants as choice;
ghost use Rattle.mpt_wire.specs.Fits.Lines.{RunsOldest, Tries, above, tries_of_round};
ghost use Rattle.mpt_rules.specs.World.State.{queues_of};
ghost use Rattle.mpt_system.specs.Turns.{HasTurned, tries_it};

use crate::system::System;
use mpt_rules::OutOfMemory;
use mpt_trace::Choice;

// After OutOfMemory the first of a method's tries were made, and no other.
impl System {
    // One round: each choice is tried once, in the order of a drain. Nothing is pending.
    pub(crate) fn round(&mut self) -> Result<(), OutOfMemory>
        requires { self.old.pending ≡ [] }
        ensures { HasTurned self.old (map Tries (tries_of_round (queues_of self.old.world))) result self.new }
    {
        let queues = self.parties.up.count();
        self.try_all(&[
            Choice::HostPut,
            Choice::IocTake,
            Choice::IocHigh,
            Choice::IocNormal,
            Choice::IocOut,
            Choice::FabricTake,
        ])?;
        self.try_oldest()?;
        self.try_all(&[
            Choice::FabricSay,
            Choice::FabricPut,
            Choice::IocBack,
            Choice::IocPut,
        ])?;
        self.try_puts_above(queues)?;
        self.try_all(&[Choice::HostTake])?;
        self.try_takes_above(queues)
    }

    // These choices, in order.
    fn try_all(&mut self, choices: &[Choice]) -> Result<(), OutOfMemory>
        requires { self.old.pending ≡ [] }
        ensures { HasTurned self.old (map tries_it choices.now) result self.new }
    {
        for choice in choices {
            self.try_step(*choice)?;
        }
        Ok(())
    }

    // The run of the oldest task, where there is one.
    fn try_oldest(&mut self) -> Result<(), OutOfMemory>
        requires { self.old.pending ≡ [] }
        ensures { HasTurned self.old (Tries RunsOldest ∷ []) result self.new }
    {
        if let Some(tag) = self.parties.fabric.oldest() {
            self.try_step(Choice::FabricRun(tag))?;
        }
        Ok(())
    }

    // The puts of the reply queues above 0.
    fn try_puts_above(&mut self, queues: u8) -> Result<(), OutOfMemory>
        requires { self.old.pending ≡ [] }
        ensures { HasTurned self.old (map (λ queue. tries_it (choice.IocPutOn queue)) (above queues)) result self.new }
    {
        for queue in 1..queues {
            self.try_step(Choice::IocPutOn(queue))?;
        }
        Ok(())
    }

    // The takes of the reply queues above 0.
    fn try_takes_above(&mut self, queues: u8) -> Result<(), OutOfMemory>
        requires { self.old.pending ≡ [] }
        ensures { HasTurned self.old (map (λ queue. tries_it (choice.HostTakeOn queue)) (above queues)) result self.new }
    {
        for queue in 1..queues {
            self.try_step(Choice::HostTakeOn(queue))?;
        }
        Ok(())
    }
}
