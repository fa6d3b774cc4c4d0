//! The laws.
ghost use Rattle.mpt_wire.specs.Handles.Plugs.{ServedAsks, served_next};
ghost use Rattle.mpt_wire.specs.Walks.Passes.{Passes};
ghost use Rattle.mpt_rules.specs.Law.{NothingIsStrange};
ghost use Rattle.mpt_rules.specs.World.Cases.{Case, entries, happens};
ghost use Rattle.mpt_rules.specs.World.State.{World};
ghost use Rattle.law_facts.specs.Facts.{Facts};
ghost use Rattle.law_facts.specs.History.{History};
ghost use Rattle.law_classes.specs.Made.{NotificationsStand};
ghost use Rattle.law_served.specs.Through.{EventsThrough};

/// Where all facts hold of a world, nothing on its way is strange to its host, and no event notification waits for an identifier, a controller whose port is
/// enabled, or that has bound a handle, lets events through, in the world that any case leads to.
pub fn events_are_let_through()
    ensures { (w : World) (h : History) (c : Case) → Facts w h → NothingIsStrange w → NotificationsStand w → EventsThrough (happens w c) }
{}

/// Where all facts hold of a world and nothing on its way is strange to its host, the entries of a case bind only what is due, to the least unbound handle,
/// and at once.
pub fn plugs_are_served()
    ensures { (w : World) (h : History) (c : Case) → Facts w h → NothingIsStrange w → Passes served_next ServedAsks h.serving (entries w c) }
{}
