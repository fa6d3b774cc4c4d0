//! The laws.
ghost use Rattle.std.specs.Prelude.{List, ℕ};
ghost use Rattle.mpt_trace.specs.declared.entry.Entry.{Entry};
ghost use Rattle.mpt_wire.specs.Paths.Replies.{RepliesAsk};
ghost use Rattle.mpt_wire.specs.Paths.Stages.{WalkAsks, walk_next};
ghost use Rattle.mpt_wire.specs.Walks.Passes.{Passes};
ghost use Rattle.mpt_rules.specs.Law.{NothingIsStrange};
ghost use Rattle.mpt_rules.specs.World.Cases.{Case, entries, happens};
ghost use Rattle.mpt_rules.specs.World.Settings.{IsCase, Setting, first_world};
ghost use Rattle.mpt_rules.specs.World.State.{World};
ghost use Rattle.law_facts.specs.Facts.{Facts};
ghost use Rattle.law_facts.specs.History.{History, first_history, history_after};
ghost use Rattle.law_paths.specs.Payloads.{PayloadsFit};
ghost use Rattle.law_paths.specs.Paths.{FurtherPaths, MarksStand, StagesStand};

/// Where all facts and the further ones hold of a world and nothing on its way is strange to its host, each open command is at the stage of its item's place
/// in the world that any case leads to: what the fabric tells of it, what the controller will say of it, and what is said of it, are of that stage.
pub fn stages_are_kept()
    ensures { (w : World) (h : History) (c : Case) → Facts w h → NothingIsStrange w → FurtherPaths w h → StagesStand (happens w c) (history_after h (entries w c)) }
{}

/// With the same premises, an abort that waits in its queue has set the mark of its command there, so that this may be stopped.
pub fn marks_are_kept()
    ensures { (w : World) (h : History) (c : Case) → Facts w h → NothingIsStrange w → FurtherPaths w h → MarksStand (happens w c) (history_after h (entries w c)) }
{}

/// And the further facts: they hold of the first world of any setting, and each case keeps them.
pub fn further_paths_are_kept()
    ensures first { (s : Setting) → FurtherPaths (first_world s) (first_history s.disks) }
    ensures kept { (w : World) (h : History) (c : Case) → IsCase c → Facts w h → NothingIsStrange w → FurtherPaths w h → FurtherPaths (happens w c) (history_after h (entries w c)) }
{}

/// So each entry which names a command is one that may follow where that command is: what a case tells goes on along the path of each.
pub fn commands_walk()
    ensures { (w : World) (h : History) (c : Case) → Facts w h → NothingIsStrange w → FurtherPaths w h → (s : ℕ) → Passes (walk_next s) (WalkAsks s) (h.walk s) (entries w c) }
{}

/// What a disk gave to an open command is at most as long as that asks for: at first, and whatever is told.
pub fn payloads_fit()
    ensures first { (s : Setting) → PayloadsFit (first_history s.disks) }
    ensures kept { (h : History) (t : List Entry) → PayloadsFit h → PayloadsFit (history_after h t) }
{}

/// And so each reply to a command tells its result as it is, or nothing where there is none.
pub fn replies_tell()
    ensures { (w : World) (h : History) (c : Case) → Facts w h → NothingIsStrange w → FurtherPaths w h → PayloadsFit h → (s : ℕ) → Passes (walk_next s) (RepliesAsk s) (h.walk s) (entries w c) }
{}
