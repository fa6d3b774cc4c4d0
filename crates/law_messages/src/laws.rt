//! The laws.
ghost use Rattle.mpt_rules.specs.World.Cases.{Case, entries, happens};
ghost use Rattle.mpt_rules.specs.Law.{NothingIsStrange};
ghost use Rattle.mpt_rules.specs.World.Settings.{Setting, first_world};
ghost use Rattle.mpt_rules.specs.World.State.{World};
ghost use Rattle.law_facts.specs.Facts.{Facts};
ghost use Rattle.law_facts.specs.History.{History, history_after};
ghost use Rattle.law_messages.specs.Commands.{CommandsKnown};
ghost use Rattle.law_messages.specs.Numbers.{AbortsAreAccepted};
ghost use Rattle.law_messages.specs.Posts.{PostsStand};

/// Where all facts hold of a world, each open abort is of a number that was accepted, and nothing on its way is strange to the host, each post on its way
/// down and each post that the controller has queued is exactly what the record of its identifier names, in the world that any case leads to.
pub fn posts_are_kept()
    ensures { (w : World) (h : History) (c : Case) → Facts w h → NothingIsStrange w → AbortsAreAccepted w → PostsStand (happens w c) (history_after h (entries w c)) }
{}

/// Where all facts hold of a world, each open abort is of a number that was accepted, and nothing on its way is strange to the host, the trace knows exactly
/// the open commands, each under its identifier and by its number, and they fit, in the world that any case leads to.
pub fn open_commands_are_known()
    ensures { (w : World) (h : History) (c : Case) → Facts w h → NothingIsStrange w → AbortsAreAccepted w → CommandsKnown (happens w c) (history_after h (entries w c)) }
{}

/// Each case keeps that an abort is open only of a number that was accepted, where all facts hold of the world before it and nothing on its way is strange.
pub fn aborts_are_of_accepted()
    ensures { (w : World) (h : History) (c : Case) → Facts w h → NothingIsStrange w → AbortsAreAccepted w → AbortsAreAccepted (happens w c) }
{}

/// No abort is open in the first world of any setting.
pub fn aborts_are_of_accepted_at_first()
    ensures { (s : Setting) → AbortsAreAccepted (first_world s) }
{}
