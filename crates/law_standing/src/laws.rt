//! The laws.
ghost use Rattle.std.specs.Prelude.{List};
ghost use Rattle.mpt_trace.specs.declared.disk_spec.DiskSpec.{DiskSpec};
ghost use Rattle.mpt_trace.specs.declared.entry.Entry.{Entry};
ghost use Rattle.mpt_wire.specs.Messages.Standing.{MessageAsks};
ghost use Rattle.mpt_wire.specs.Walks.Passes.{EachEntry};
ghost use Rattle.mpt_rules.specs.World.Cases.{Case, entries, happens};
ghost use Rattle.mpt_rules.specs.Law.{NothingIsStrange};
ghost use Rattle.mpt_rules.specs.World.Settings.{Setting, first_world};
ghost use Rattle.mpt_rules.specs.World.State.{World, queues_of};
ghost use Rattle.law_facts.specs.Facts.{Facts};
ghost use Rattle.law_facts.specs.History.{History, first_history, history_after};
ghost use Rattle.law_standing.specs.Written.{OutcomesFit, RepliesAreWritten};

/// Where all facts hold of a world, nothing on its way is strange to the host, what disks answered fits the fields of replies, and the replies that wait in
/// the controller's outboxes are as it writes them, as far as the facts don't say it (`RepliesAreWritten`): each post that a case puts is a request as the host writes it, and each reply that it puts is one as the controller writes it.
pub fn messages_pass()
    ensures { (w : World) (h : History) (c : Case) → Facts w h → NothingIsStrange w → OutcomesFit h → RepliesAreWritten w → EachEntry (MessageAsks (queues_of w)) (entries w c) }
{}

/// What disks answered fits the fields of replies, whatever entries follow.
pub fn outcomes_stay_fit()
    ensures { (h : History) (t : List Entry) → OutcomesFit h → OutcomesFit (history_after h t) }
{}

/// At first no disk has answered anything.
pub fn outcomes_fit_at_first()
    ensures { (disks : List DiskSpec) → OutcomesFit (first_history disks) }
{}

/// Where all facts hold of a world and nothing on its way is strange to the host, each case keeps that the replies in the
/// controller's outboxes are as it writes them.
pub fn replies_stay_written()
    ensures { (w : World) (h : History) (c : Case) → Facts w h → NothingIsStrange w → RepliesAreWritten w → RepliesAreWritten (happens w c) }
{}

/// At first nothing waits in the controller's outboxes.
pub fn replies_are_written_at_first()
    ensures { (s : Setting) → RepliesAreWritten (first_world s) }
{}
