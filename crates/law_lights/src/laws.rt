//! The laws.
ghost use Rattle.mpt_rules.specs.World.Cases.{Case, entries, happens};
ghost use Rattle.mpt_rules.specs.Law.{NothingIsStrange};
ghost use Rattle.mpt_rules.specs.World.State.{World};
ghost use Rattle.law_facts.specs.Clock.{Clock};
ghost use Rattle.law_facts.specs.Facts.{Facts};
ghost use Rattle.law_facts.specs.History.{History, history_after};

/// Where all facts hold of a world and nothing on its way is strange to its host, all facts of the clock of resets hold of the world that any case leads
/// to, with what the rules on the wire know of resets after the case's entries.
pub fn clocks_are_kept()
    ensures { (w : World) (h : History) (c : Case) → Facts w h → NothingIsStrange w → Clock (happens w c) (history_after h (entries w c)) }
{}
