//! Draining: rounds until the world is quiet.
ghost use Rattle.std.specs.Prelude.{◌≡◌, ◌-◌, ◌^◌, [], IfOk, OnErr, OnOk, min};
ghost use Rattle.mpt_rules.specs.World.Drain.{drain_rounds, drain_with, drains, rounds_with};
ghost use Rattle.mpt_system.specs.Turns.{DrainedSoFar};
ghost use Rattle.mpt_system.specs.Whole.{Stays, after, written};

use crate::system::System;
use mpt_rules::OutOfMemory;

impl System {
    /// Makes rounds, in each of which every choice is tried once, until the world is quiet, and answers
    /// how many rounds there were, at most `u64::MAX`. A try with nothing to take makes no entry.
    ///
    /// # Errors
    /// After OutOfMemory the rounds and tries that were made stand, and the last of their entries may be
    /// pending: they are written by the next call.
    pub fn drain(&mut self) -> Result<u64, OutOfMemory>
        ensures ok { OnOk result (self.new ≡ after self.old (drains self.old.world)) }
        ensures rounds { IfOk result (λ rounds. rounds ≡ min (drain_rounds self.old.world) (2 ^ 64 - 1)) }
        ensures memory { OnErr result (DrainedSoFar self.old self.new) }
    {
        self.write()?;
        let most = self.weight();
        let rounds = self.make_rounds(most)?;
        Ok(rounds.min(u128::from(u64::MAX)) as u64)
    }

    // Makes at most so many rounds, until the world is quiet, and answers how many there were. Nothing is
    // pending.
    fn make_rounds(&mut self, most: u128) -> Result<u128, OutOfMemory>
        requires { self.old.pending ≡ [] }
        ensures ok { OnOk result (self.new ≡ after self.old (drain_with most self.old.world)) }
        ensures rounds { IfOk result (λ rounds. rounds ≡ rounds_with most self.old.world) }
        ensures memory { OnErr result (DrainedSoFar self.old self.new) }
    {
        for rounds in 0..most {
            if self.quiet() {
                return Ok(rounds);
            }
            self.round()?;
        }
        Ok(most)
    }

    // What is pending is written.
    fn write(&mut self) -> Result<(), OutOfMemory>
        ensures ok { OnOk result (self.new ≡ written self.old) }
        ensures stays { OnErr result (Stays self.old self.new) }
    {
        self.parties.write_told()
    }
}
