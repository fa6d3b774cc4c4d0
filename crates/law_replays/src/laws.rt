//! The laws.
ghost use Rattle.std.specs.Prelude.{IsTrue, List};
ghost use Rattle.mpt_script.specs.Allowed.{is_schedule};
ghost use Rattle.mpt_script.specs.declared.line.Line.{Line as ScriptLine};
ghost use Rattle.mpt_rules.specs.Law.{ReplaysAreOfCases, ReplaysAreTurns, RunsSoFarAreOfCases, SessionSummariesTell, SummariesTell};
ghost use Rattle.law_replays.specs.Schedules.{KeepsLimits};

/// What a schedule leaves is what some list of allowed cases leaves: so what holds of every list of cases holds of it.
pub fn replays_are_of_cases()
    ensures { ReplaysAreOfCases }
{}

/// And so it is of a schedule that was carried out so far, with any numbers of rounds of its drains.
pub fn runs_so_far_are_of_cases()
    ensures { RunsSoFarAreOfCases }
{}

/// A schedule that is carried out whole is carried out turn by turn, with some number of rounds of each drain.
pub fn replays_are_turns()
    ensures { ReplaysAreTurns }
{}

/// Each schedule that a text can stand for keeps the limits that the law speaks of.
pub fn schedules_keep_limits()
    ensures { (lines : List ScriptLine) → IsTrue (is_schedule lines) → KeepsLimits lines }
{}

/// The summary that ends a schedule's report is one of its trace.
pub fn summaries_tell()
    ensures { SummariesTell }
{}

/// And so is that of a session.
pub fn session_summaries_tell()
    ensures { SessionSummariesTell }
{}
