//! The laws.
ghost use Rattle.mpt_wire.specs.Handles.Removals.{UnbindAsks, removals_next};
ghost use Rattle.mpt_wire.specs.Walks.Passes.{Passes};
ghost use Rattle.mpt_rules.specs.Law.{NothingIsStrange};
ghost use Rattle.mpt_rules.specs.World.Cases.{Case, entries, happens};
ghost use Rattle.mpt_rules.specs.World.State.{World};
ghost use Rattle.law_facts.specs.Facts.{Facts};
ghost use Rattle.law_facts.specs.History.{History, history_after};
ghost use Rattle.law_messages.specs.Numbers.{AbortsAreAccepted};
ghost use Rattle.law_places.specs.Further.{VectorsFit};
ghost use Rattle.law_removals.specs.Removing.{LastsInLine, PagesAreBound, RemovalsKnown, ResetsAreBound};

/// Where all facts hold of a world, nothing on its way is strange to its host, each open abort is of a number that was accepted and no IOC Init asked for
/// more reply queues than there are, the rule of removals knows each remove device that is queued, in the world that any case leads to.
pub fn removals_are_known()
    ensures { (w : World) (h : History) (c : Case) → Facts w h → NothingIsStrange w → AbortsAreAccepted w → VectorsFit w → RemovalsKnown (happens w c) (history_after h (entries w c)) }
{}

/// Where all facts hold of a world and nothing on its way is strange to its host, each handle that a case frees is that of a remove device which was taken and isn't answered.
pub fn unbinds_pass()
    ensures { (w : World) (h : History) (c : Case) → Facts w h → NothingIsStrange w → Passes removals_next UnbindAsks h.removals (entries w c) }
{}

/// With the premises of `removals_are_known`, one remove device at most of each handle is on its way or queued, and nothing that uses the handle stands behind it, in the world that any case leads to.
pub fn lasts_are_kept()
    ensures { (w : World) (h : History) (c : Case) → Facts w h → NothingIsStrange w → AbortsAreAccepted w → VectorsFit w → LastsInLine (happens w c) }
{}

/// With the same premises, each page read that is on its way to a controller that is OPERATIONAL, or queued there, has a handle that is bound.
pub fn pages_are_bound()
    ensures { (w : World) (h : History) (c : Case) → Facts w h → NothingIsStrange w → AbortsAreAccepted w → VectorsFit w → PagesAreBound (happens w c) }
{}

/// With the same premises, each target reset that is on its way to a controller that is OPERATIONAL, or queued there, has a handle that is bound to the address for which it was asked; that of a removal has a handle whose disk is gone.
pub fn resets_are_bound()
    ensures { (w : World) (h : History) (c : Case) → Facts w h → NothingIsStrange w → AbortsAreAccepted w → VectorsFit w → ResetsAreBound (happens w c) }
{}
