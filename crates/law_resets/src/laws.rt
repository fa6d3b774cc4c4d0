//! The laws.
ghost use Rattle.mpt_rules.specs.World.Cases.{Case, entries, happens};
ghost use Rattle.mpt_rules.specs.World.State.{World};
ghost use Rattle.law_facts.specs.History.{History, history_after};
ghost use Rattle.law_clock.specs.Premises.{Before, Behind};
ghost use Rattle.law_resets.specs.Shown.{ShownResets};

/// Where `Before` holds of a world and `Behind` of the next, the clock of resets stands in the world that any case leads to, with the marks of resets and
/// what the rules on the wire know of them after the case's entries.
pub fn resets_are_kept()
    ensures { (w : World) (h : History) (c : Case) → Before w h → Behind (happens w c) → ShownResets (happens w c) (history_after h (entries w c)) }
{}
