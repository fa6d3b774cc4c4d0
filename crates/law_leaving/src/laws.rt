//! The laws.
ghost use Rattle.std.specs.Prelude.{ℕ};
ghost use Rattle.mpt_wire.specs.Handles.Leaving.{LeaveAsks, leaving_next};
ghost use Rattle.mpt_wire.specs.Walks.Passes.{Passes};
ghost use Rattle.mpt_rules.specs.Law.{NothingIsStrange};
ghost use Rattle.mpt_rules.specs.World.Cases.{Case, entries, happens};
ghost use Rattle.mpt_rules.specs.World.State.{World};
ghost use Rattle.law_facts.specs.Facts.{Facts};
ghost use Rattle.law_facts.specs.History.{History, history_after};
ghost use Rattle.law_messages.specs.Numbers.{AbortsAreAccepted};
ghost use Rattle.law_places.specs.Further.{VectorsFit};
ghost use Rattle.law_leaving.specs.Leaving.{LeavingsKnown};
ghost use Rattle.law_leaving.specs.Resets.{HeldLast, LastResets};

/// Where all facts hold of a world, nothing on its way is strange to its host and no IOC Init asked for more reply queues than there are, the rule of
/// leaving handles knows how far a host that starts or is up is with each, in the world that any case leads to.
pub fn leavings_are_known()
    ensures { (w : World) (h : History) (c : Case) → Facts w h → NothingIsStrange w → VectorsFit w → LeavingsKnown (happens w c) (history_after h (entries w c)) }
{}

/// Where all facts hold of a world and nothing on its way is strange to its host, each remove device that a case puts is of a handle that was told as not
/// responding, with a target reset of it answered since.
pub fn leaving_passes()
    ensures { (w : World) (h : History) (c : Case) → Facts w h → NothingIsStrange w → (handle : ℕ) → Passes (leaving_next handle) (LeaveAsks handle) (h.leaving handle) (entries w c) }
{}

/// Where all facts hold of a world, nothing on its way is strange to its host, each open abort is of a number that was accepted and no IOC Init asked for
/// more reply queues than there are, no target reset of a handle stands behind that of its removal, in the world that any case leads to.
pub fn last_resets_are_kept()
    ensures { (w : World) (h : History) (c : Case) → Facts w h → NothingIsStrange w → AbortsAreAccepted w → VectorsFit w → LastResets (happens w c) }
{}

/// With the same premises, none is on its way where that of the removal waits at the controller.
pub fn held_resets_are_last()
    ensures { (w : World) (h : History) (c : Case) → Facts w h → NothingIsStrange w → AbortsAreAccepted w → VectorsFit w → HeldLast (happens w c) }
{}
