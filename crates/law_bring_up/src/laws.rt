//! The laws.
ghost use Rattle.mpt_rules.specs.Law.{NothingIsStrange};
ghost use Rattle.mpt_rules.specs.World.Cases.{Case, happens};
ghost use Rattle.mpt_rules.specs.World.Settings.{Setting, first_world};
ghost use Rattle.mpt_rules.specs.World.State.{World};
ghost use Rattle.law_facts.specs.Facts.{Facts};
ghost use Rattle.law_facts.specs.History.{History};
ghost use Rattle.law_facts.specs.Messages.{BringUp};
ghost use Rattle.law_fresh.specs.Bare.{StartsBare};
ghost use Rattle.law_classes.specs.Made.{NotificationsStand};
ghost use Rattle.law_bring_up.specs.Enables.{EnablesStand};

/// Where all facts hold of a world and nothing on its way is strange to its host, a start has nothing before it, no event notification waits for an
/// identifier, and a port enable that waits finds the port not enabled, all facts of the start's two requests hold of the world that any case leads to.
pub fn starts_are_brought_up()
    ensures { (w : World) (h : History) (c : Case) → Facts w h → NothingIsStrange w → StartsBare w → NotificationsStand w → EnablesStand w → BringUp (happens w c) }
{}

/// With the same premises a port enable that waits finds the port not enabled and events let through, and neither request is open before the controller
/// is OPERATIONAL, in the world that any case leads to.
pub fn enables_stay()
    ensures { (w : World) (h : History) (c : Case) → Facts w h → NothingIsStrange w → StartsBare w → NotificationsStand w → EnablesStand w → EnablesStand (happens w c) }
{}

/// So it is in the first world of any setting.
pub fn enables_stand_at_first()
    ensures { (s : Setting) → EnablesStand (first_world s) }
{}
