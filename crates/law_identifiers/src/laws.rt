//! The laws.
ghost use Rattle.std.specs.Prelude.{All, List};
ghost use Rattle.mpt_wire.specs.Fits.Lines.{Line};
ghost use Rattle.mpt_rules.specs.Law.{FramePlacesAreTold, FramesHaveOnePlace, IdentifiersHaveOnePlace, IsLine, LeastIdentifiersAreTaken, SmidPlacesAreTold};
ghost use Rattle.mpt_rules.specs.World.Cases.{Case, trace};
ghost use Rattle.mpt_rules.specs.World.Replays.{replays};
ghost use Rattle.mpt_rules.specs.World.Settings.{IsSetting, Setting, first_world};
ghost use Rattle.mpt_rules.specs.World.State.{World};

use law_replays::replays_are_of_cases;

/// A submission is accepted under the least identifier that no open submission and no open abort has, over every list of
/// cases, whatever the host takes.
pub fn least_identifiers_are_taken()
    ensures { (s : Setting) (cases : List Case) → LeastIdentifiersAreTaken s (trace (first_world s) cases) }
{}

/// And so it is over every schedule.
pub fn replays_take_least()
    ensures { (s : Setting) (lines : List Line) → IsSetting s → All (IsLine s) lines → LeastIdentifiersAreTaken s (replays (first_world s) lines).entries }
{
    replays_are_of_cases()
}

/// In each world where each identifier has one place, `places` tells it, and so it does of each reply frame.
pub fn places_are_told()
    ensures smids { (w : World) → IdentifiersHaveOnePlace w → SmidPlacesAreTold w }
    ensures frames { (w : World) → FramesHaveOnePlace w → FramePlacesAreTold w }
{}
