//! The laws.
ghost use Rattle.std.specs.Prelude.{List};
ghost use Rattle.mpt_rules.specs.World.Cases.{Case, happens, run};
ghost use Rattle.mpt_rules.specs.World.Settings.{IsSetting, Setting, first_world};
ghost use Rattle.mpt_rules.specs.World.State.{World};
ghost use Rattle.law_facts.specs.Flights.{Sizes};

/// No case gives a list that stands for a table another length, whatever is on the lanes.
pub fn sizes_are_kept()
    ensures { (w : World) (c : Case) → Sizes w → Sizes (happens w c) }
{}

/// The tables of the first world of a setting have their lengths.
pub fn sizes_stand_at_first()
    ensures { (s : Setting) → IsSetting s → Sizes (first_world s) }
{}

/// So the tables have their lengths in the world that any list of cases leads to.
pub fn sizes_stand()
    ensures { (s : Setting) (cases : List Case) → IsSetting s → Sizes (run (first_world s) cases) }
{}
