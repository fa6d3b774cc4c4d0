//! The laws.
ghost use Rattle.std.specs.Prelude.{All, List};
ghost use Rattle.mpt_wire.specs.Fits.Lines.{Line};
ghost use Rattle.mpt_rules.specs.Law.{IsLine, NothingFaults, ValuesAreTied};
ghost use Rattle.mpt_rules.specs.World.Replays.{replays};
ghost use Rattle.mpt_rules.specs.World.Settings.{IsSetting, OfEveryTrace, OfEveryWorld, Setting, first_world};

use law_replays::replays_are_of_cases;

/// Where the controller is in FAULT in no world, each value that is read is that of its register, over every list of cases,
/// whatever else host and fabric do.
pub fn values_are_registers()
    ensures { OfEveryWorld NothingFaults → OfEveryTrace ValuesAreTied }
{}

/// And so it is over every schedule.
pub fn replays_read_registers()
    ensures { OfEveryWorld NothingFaults → (s : Setting) (lines : List Line) → IsSetting s → All (IsLine s) lines → ValuesAreTied s (replays (first_world s) lines).entries }
{
    replays_are_of_cases()
}
