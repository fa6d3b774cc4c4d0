//! The laws.
ghost use Rattle.mpt_rules.specs.Law.{NothingIsStrange};
ghost use Rattle.mpt_rules.specs.World.Cases.{Case, entries, happens};
ghost use Rattle.mpt_rules.specs.World.Settings.{Setting, first_world};
ghost use Rattle.mpt_rules.specs.World.State.{World};
ghost use Rattle.mpt_wire.specs.Queues.Identifiers.{ClassesKept};
ghost use Rattle.law_facts.specs.Facts.{Facts};
ghost use Rattle.law_facts.specs.History.{History};
ghost use Rattle.law_classes.specs.Made.{LeastsAgree, NotificationsAreFirst, NotificationsStand, PutAsMade};

/// Where all facts hold of a world and nothing on its way is strange to its host, each post that a case puts has an identifier of the class of its
/// descriptor's kind, and each reply that a case puts under identifier 0 is an event.
pub fn classes_are_kept()
    ensures { (w : World) (h : History) (c : Case) → Facts w h → NothingIsStrange w → ClassesKept (entries w c) }
{}

/// Where besides an event notification is open under the first identifier of its class alone: each post of task management, and each of the internal
/// class, that a case puts has the identifier that was made first of its class, and the event notification that first one.
pub fn posts_go_as_made()
    ensures { (w : World) (h : History) (c : Case) → Facts w h → NothingIsStrange w → NotificationsAreFirst w → PutAsMade h (entries w c) }
{}

/// Where all facts hold of a world and nothing on its way is strange to its host: if an event notification is open under the first identifier of its
/// class alone and none waits for an identifier, it's so in the world that any case leads to.
pub fn notifications_stay_first()
    ensures { (w : World) (h : History) (c : Case) → Facts w h → NothingIsStrange w → NotificationsStand w → NotificationsStand (happens w c) }
{}

/// So it is in the first world of any setting.
pub fn notifications_stand_at_first()
    ensures { (s : Setting) → NotificationsStand (first_world s) }
{}

/// Where all facts hold of a world, the least identifier of task management that isn't open by the rule on posts is the one that the host gives next; and
/// so it is of the internal class, where each event notification that is open was put.
pub fn leasts_agree()
    ensures { (w : World) (h : History) → Facts w h → LeastsAgree w h }
{}
