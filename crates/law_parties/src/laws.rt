//! The laws.
ghost use Rattle.std.specs.Prelude.{◌≡◌, All, List};
ghost use Rattle.mpt_wire.specs.Fits.Lines.{Line};
ghost use Rattle.mpt_wire.specs.Machine.View.{machine_after};
ghost use Rattle.mpt_rules.specs.Law.{AnsweredAtMostOnce, ControllersAreShort, IsLine, ModesAgree, QueuesAreShort, QuietIsAnswered, TellsStandBehind};
ghost use Rattle.mpt_rules.specs.World.Cases.{Case, run, trace};
ghost use Rattle.mpt_rules.specs.World.Replays.{replays};
ghost use Rattle.mpt_rules.specs.World.Settings.{IsSetting, Setting, first_world};

use law_replays::replays_are_of_cases;

/// Whatever a controller takes from its lanes, its queues are no longer than there are identifiers of their kinds.
pub fn controllers_are_short()
    ensures { ControllersAreShort }
{}

/// So they are in the world that any list of cases leads to.
pub fn queues_stay_short()
    ensures { (s : Setting) (cases : List Case) → QueuesAreShort (run (first_world s) cases) }
{}

/// What is told stands right after an entry of its own party, over every list of cases.
pub fn tells_stand_behind()
    ensures { (s : Setting) (cases : List Case) → TellsStandBehind s (trace (first_world s) cases) }
{}

/// No number is accepted twice or answered twice, and at each end of a reset none is unanswered, over every list of cases.
pub fn answered_at_most_once()
    ensures { (s : Setting) (cases : List Case) → AnsweredAtMostOnce s (trace (first_world s) cases) }
{}

/// Where all is quiet, each accepted number was answered.
pub fn quiet_is_answered()
    ensures { (s : Setting) (cases : List Case) → QuietIsAnswered s cases }
{}

/// The machine's mode after the trace of a list of cases is the host's.
pub fn modes_agree()
    ensures { (s : Setting) (cases : List Case) → ModesAgree s cases }
{}

/// And so of every schedule: no number is accepted twice or answered twice, and at each end of a reset none is
/// unanswered; what is told stands right after an entry of its own party; and the machine's mode is the host's.
pub fn replays_keep_these_laws()
    ensures once { (s : Setting) (lines : List Line) → IsSetting s → All (IsLine s) lines → AnsweredAtMostOnce s (replays (first_world s) lines).entries }
    ensures tells { (s : Setting) (lines : List Line) → IsSetting s → All (IsLine s) lines → TellsStandBehind s (replays (first_world s) lines).entries }
    ensures modes { (s : Setting) (lines : List Line) → IsSetting s → All (IsLine s) lines → (machine_after s.disks (replays (first_world s) lines).entries).mode ≡ (replays (first_world s) lines).part.host.mode }
{
    replays_are_of_cases()
}
