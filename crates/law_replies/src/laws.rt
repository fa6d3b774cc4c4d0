//! The laws.
ghost use Rattle.mpt_rules.specs.Law.{NothingIsStrange};
ghost use Rattle.mpt_rules.specs.World.Cases.{Case, happens};
ghost use Rattle.mpt_rules.specs.World.Settings.{Setting, first_world};
ghost use Rattle.mpt_rules.specs.World.State.{World};
ghost use Rattle.law_facts.specs.Facts.{Facts};
ghost use Rattle.law_facts.specs.History.{History};
ghost use Rattle.law_standing.specs.Written.{RepliesAreWritten};
ghost use Rattle.law_replies.specs.Events.{EventsStand, EventsTellChanges};

/// Where all facts hold of a world, nothing on its way is strange to the host, and the replies in the controller's outboxes are as it writes them, then
/// after each case what waits there without an identifier is an event that tells one change: its frame is that of the numbers that are read from it.
pub fn events_tell_one_change()
    ensures { (w : World) (h : History) (c : Case) → Facts w h → NothingIsStrange w → RepliesAreWritten w → EventsTellChanges (happens w c) }
{}

/// Where all facts hold of a world and nothing on its way is strange to the host, each case keeps that what waits in the controller's outboxes without an
/// identifier is an event: of one change of a disk's handle, on queue 0, with nothing beside its frame.
pub fn events_are_kept()
    ensures { (w : World) (h : History) (c : Case) → Facts w h → NothingIsStrange w → EventsStand w → EventsStand (happens w c) }
{}

/// At first nothing waits in the controller's outboxes.
pub fn events_stand_at_first()
    ensures { (s : Setting) → EventsStand (first_world s) }
{}
