//! The laws.
ghost use Rattle.std.specs.Prelude.{List};
ghost use Rattle.mpt_trace.specs.declared.entry.Entry.{Entry};
ghost use Rattle.mpt_rules.specs.Law.{NothingIsStrange};
ghost use Rattle.mpt_rules.specs.World.Cases.{Case, entries, happens};
ghost use Rattle.mpt_rules.specs.World.Settings.{Setting, first_world};
ghost use Rattle.mpt_rules.specs.World.State.{World};
ghost use Rattle.law_facts.specs.Facts.{Facts};
ghost use Rattle.law_facts.specs.History.{History, first_history, history_after};
ghost use Rattle.law_facts.specs.Ties.{RingsTied};
ghost use Rattle.law_records.specs.Records.{AbortsAreKnown};
ghost use Rattle.law_ties.specs.Holders.{HoldersAgree, HoldersKept, LeastPasses};
ghost use Rattle.law_ties.specs.Shown.{IndicesAreOfQueues, IndicesKept, IndicesPass, ResetsUnbind, RingPasses, WordsAgree};

/// Where all facts hold of a world, nothing on its way is strange to its host, and each index that is to be put is of a reply queue that there is, the
/// indices of each reply queue that were written and are to be written go on from the replies that were heard on it, in the world that any case leads to.
pub fn indices_are_kept()
    ensures { (w : World) (h : History) (c : Case) → Facts w h → NothingIsStrange w → IndicesAreOfQueues w → IndicesKept (happens w c) (history_after h (entries w c)) }
{}

/// And in the entries of the case each index that is put is the next one of its ring.
pub fn indices_go_on()
    ensures { (w : World) (h : History) (c : Case) → Facts w h → NothingIsStrange w → IndicesAreOfQueues w → IndicesPass h (entries w c) }
{}

/// No index is to be put in the first world of any setting.
pub fn indices_are_of_queues_at_first()
    ensures { (s : Setting) → IndicesAreOfQueues (first_world s) }
{}

/// Where all facts hold of a world and nothing on its way is strange to its host, in the entries of any case `unbind all` stands right behind each taking of a
/// write that begins a reset, and nowhere else; and none such is the last.
pub fn resets_unbind()
    ensures { (w : World) (h : History) (c : Case) → Facts w h → NothingIsStrange w → ResetsUnbind (entries w c) }
{}

/// Where all facts hold of a world, nothing on its way is strange to its host, and each index that is to be put is of a reply queue that there is, the rule of
/// the reply free ring has the controller's ring, and returns that are to be put go on from those that were, in the world that any case leads to.
pub fn rings_are_kept()
    ensures { (w : World) (h : History) (c : Case) → Facts w h → NothingIsStrange w → IndicesAreOfQueues w → RingsTied (happens w c) (history_after h (entries w c)) }
{}

/// Where all facts hold of a world and nothing on its way is strange to its host, each reply with a frame that the entries of any case put has the frame that waits longest.
pub fn replies_take_the_first_frame()
    ensures { (w : World) (h : History) (c : Case) → Facts w h → NothingIsStrange w → RingPasses h (entries w c) }
{}

/// Where all facts hold of a world, each open abort is of a number that was accepted, and the holders of identifiers agree with the host's numbers, the rule of
/// least identifiers has the host's slots in the world that any case leads to, and its holders agree there.
pub fn holders_are_kept()
    ensures { (w : World) (h : History) (c : Case) → Facts w h → AbortsAreKnown w → HoldersAgree w h → HoldersKept (happens w c) (history_after h (entries w c)) }
{}

/// And in the entries of the case a submission is accepted under the least identifier that isn't held.
pub fn least_identifiers_are_accepted()
    ensures { (w : World) (h : History) (c : Case) → Facts w h → AbortsAreKnown w → HoldersAgree w h → LeastPasses h (entries w c) }
{}

/// Nothing holds an identifier in the first world of any setting.
pub fn holders_agree_at_first()
    ensures { (s : Setting) → HoldersAgree (first_world s) (first_history s.disks) }
{}

/// Whatever entries come, the rule of least posts and the view go on to have the same of what was said so far.
pub fn words_agree()
    ensures { (h : History) (t : List Entry) → WordsAgree h → WordsAgree (history_after h t) }
{}
