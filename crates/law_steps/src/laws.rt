//! The laws.
ghost use Rattle.mpt_rules.specs.World.Cases.{Case, happens};
ghost use Rattle.mpt_rules.specs.Law.{NothingIsStrange};
ghost use Rattle.mpt_rules.specs.World.State.{World};
ghost use Rattle.law_facts.specs.DoorAhead.{AdapterBit, ResetSteps};
ghost use Rattle.law_facts.specs.Facts.{Facts};
ghost use Rattle.law_facts.specs.History.{History};
ghost use Rattle.law_starts.specs.Starts.{StartsStand};

/// Where all facts hold of a world and nothing on its way is strange to its host, RESET_ADAPTER is set in the world that any case leads to exactly where
/// the controller is RESET by HostDiagnostic.
pub fn adapter_bit_is_kept()
    ensures { (w : World) (h : History) (c : Case) → Facts w h → NothingIsStrange w → AdapterBit (happens w c) }
{}

/// Where all facts and those of a start hold of a world, and nothing on its way is strange to its host, a reset's machine stands and reads as it should
/// in the world that any case leads to.
pub fn reset_steps_are_kept()
    ensures { (w : World) (h : History) (c : Case) → Facts w h → NothingIsStrange w → StartsStand w → ResetSteps (happens w c) }
{}
