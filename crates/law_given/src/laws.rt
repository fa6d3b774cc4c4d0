//! The laws.
ghost use Rattle.mpt_rules.specs.Law.{NothingIsStrange};
ghost use Rattle.mpt_rules.specs.World.Cases.{Case, entries, happens};
ghost use Rattle.mpt_rules.specs.World.State.{World};
ghost use Rattle.law_facts.specs.Facts.{Facts};
ghost use Rattle.law_facts.specs.History.{History, history_after};
ghost use Rattle.law_given.specs.HighGiven.{HighGiven};

/// Where all facts hold of a world and nothing on its way is strange to its host, the rule of least posts has of task management the host's open
/// identifiers, the posts in its outbox and what waits for an identifier, in the world that any case leads to.
pub fn high_identifiers_are_given()
    ensures { (w : World) (h : History) (c : Case) → Facts w h → NothingIsStrange w → HighGiven (happens w c) (history_after h (entries w c)) }
{}
