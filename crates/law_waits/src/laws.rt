//! The laws.
ghost use Rattle.mpt_rules.specs.Law.{NothingIsStrange};
ghost use Rattle.mpt_rules.specs.World.Cases.{Case, happens};
ghost use Rattle.mpt_rules.specs.World.State.{World};
ghost use Rattle.law_facts.specs.Facts.{Facts};
ghost use Rattle.law_facts.specs.History.{History};
ghost use Rattle.law_waits.specs.Waits.{WaitsForIdentifiers};

/// Where all facts hold of a world and nothing on its way is strange to its host, a removal's target reset or a request of the internal class waits in the world
/// that any case leads to only where no identifier of its class is free.
pub fn waits_are_for_identifiers()
    ensures { (w : World) (h : History) (c : Case) → Facts w h → NothingIsStrange w → WaitsForIdentifiers (happens w c) }
{}
