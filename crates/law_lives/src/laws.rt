//! The laws.
ghost use Rattle.mpt_rules.specs.Law.{NothingIsStrange};
ghost use Rattle.mpt_rules.specs.World.Cases.{Case, entries, happens};
ghost use Rattle.mpt_rules.specs.World.State.{World};
ghost use Rattle.law_facts.specs.Facts.{Facts};
ghost use Rattle.law_facts.specs.History.{History, history_after};
ghost use Rattle.law_lives.specs.Standing.{BindingsStand, LivesStand, PhasesStand};

/// Where all facts hold of a world, phases and records belong to each other in the world that any case leads to, and only what may wait does.
pub fn phases_are_kept()
    ensures { (w : World) (h : History) (c : Case) → Facts w h → PhasesStand (happens w c) }
{}

/// With the same premise, the controller's bindings and the disks that wait for a handle are there as the rule of plugs has them after the case's entries.
pub fn bindings_are_kept()
    ensures { (w : World) (h : History) (c : Case) → Facts w h → BindingsStand (happens w c) (history_after h (entries w c)) }
{}

/// Where all facts hold of a world and nothing on its way is strange to its host, what is on its way on reply queue 0 leads from the phase of each handle to
/// its binding, in the world that any case leads to.
pub fn lives_are_kept()
    ensures { (w : World) (h : History) (c : Case) → Facts w h → NothingIsStrange w → LivesStand (happens w c) }
{}
