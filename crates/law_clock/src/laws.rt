//! The laws.
ghost use Rattle.mpt_rules.specs.World.Cases.{Case, happens};
ghost use Rattle.mpt_rules.specs.World.State.{World};
ghost use Rattle.law_facts.specs.History.{History};
ghost use Rattle.law_clock.specs.Premises.{Before, Behind};
ghost use Rattle.law_clock.specs.Shown.{ShownClock};

/// Where `Before` holds of a world and `Behind` of the next, the clock of resets stands in the world that any case leads to.
pub fn clock_is_kept()
    ensures { (w : World) (h : History) (c : Case) → Before w h → Behind (happens w c) → ShownClock (happens w c) }
{}
