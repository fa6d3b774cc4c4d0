//! The laws.
ghost use Rattle.mpt_rules.specs.World.Cases.{Case, happens};
ghost use Rattle.mpt_rules.specs.Law.{NothingIsStrange};
ghost use Rattle.mpt_rules.specs.World.Settings.{Setting, first_world};
ghost use Rattle.mpt_rules.specs.World.State.{World};
ghost use Rattle.law_facts.specs.DoorAhead.{FreshStart};
ghost use Rattle.law_facts.specs.Facts.{Facts};
ghost use Rattle.law_facts.specs.History.{History};
ghost use Rattle.law_starts.specs.Starts.{StartsStand};
ghost use Rattle.law_fresh.specs.Bare.{StartsBare};

/// Where all facts hold of a world whose start has nothing before it, and nothing on its way is strange to its host, a start has nothing before it in the
/// world that any case leads to.
pub fn starts_are_bare()
    ensures { (w : World) (h : History) (c : Case) → Facts w h → NothingIsStrange w → StartsBare w → StartsBare (happens w c) }
{}

/// In the first world of any setting no start has anything before it.
pub fn starts_are_bare_at_first()
    ensures { (s : Setting) → StartsBare (first_world s) }
{}

/// Where all facts and those of a start hold of a world whose start has nothing before it, and nothing on its way is strange to its host, in the world that
/// any case leads to a start's machine finds nothing at the host, and nothing waits there while a reset goes on.
pub fn starts_begin_fresh()
    ensures { (w : World) (h : History) (c : Case) → Facts w h → NothingIsStrange w → StartsStand w → StartsBare w → FreshStart (happens w c) }
{}
