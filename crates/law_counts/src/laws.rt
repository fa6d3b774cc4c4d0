//! The laws.
ghost use Rattle.std.specs.Prelude.{ℕ};
ghost use Rattle.mpt_wire.specs.Paths.TerminationCounts.{HighAsks, high_next};
ghost use Rattle.mpt_wire.specs.Walks.Passes.{Passes};
ghost use Rattle.mpt_rules.specs.Law.{NothingIsStrange};
ghost use Rattle.mpt_rules.specs.World.Cases.{Case, entries, happens};
ghost use Rattle.mpt_rules.specs.World.Settings.{Setting, first_world};
ghost use Rattle.mpt_rules.specs.World.State.{World};
ghost use Rattle.law_facts.specs.Facts.{Facts};
ghost use Rattle.law_facts.specs.History.{History, first_history, history_after};
ghost use Rattle.law_messages.specs.Numbers.{AbortsAreAccepted};
ghost use Rattle.law_counts.specs.Counted.{CountsFit, CountsKept, FabricAnswers, KnowsHighAlone, ProgressKept};

/// Where all facts hold of a world and nothing on its way is strange to its host, the rule of counts and the view know nothing of identifiers that
/// aren't of task management behind the entries of any case.
pub fn only_high_stays()
    ensures { (w : World) (h : History) (c : Case) → Facts w h → NothingIsStrange w → KnowsHighAlone (history_after h (entries w c)) }
{}

/// Where besides each open abort is of a number that was accepted, and of what the fabric has of an abort or a target reset the count is awaited: it is so in
/// the world that any case leads to, and there nothing was asked of the fabric for an abort or a target reset that is on its way to the controller, in its
/// queue, waiting, or in its outbox, and the count of one that was put for the fabric is awaited.
pub fn progress_is_kept()
    ensures { (w : World) (h : History) (c : Case) → Facts w h → NothingIsStrange w → AbortsAreAccepted w → FabricAnswers w h → ProgressKept (happens w c) (history_after h (entries w c)) }
{}

/// In the first world of any setting the fabric has nothing.
pub fn fabric_answers_at_first()
    ensures { (s : Setting) → FabricAnswers (first_world s) (first_history s.disks) }
{}

/// And the entries of the case pass the rule of counts: an item for the fabric is put once, for a post of its kind, its count is taken after it, and a reply
/// has that count, or where nothing was sent 0, or 1 of an abort that took its command out of the queue.
pub fn counts_pass()
    ensures { (w : World) (h : History) (c : Case) → Facts w h → NothingIsStrange w → FabricAnswers w h → (s : ℕ) → Passes (high_next s) (HighAsks s) (h.high s) (entries w c) }
{}

/// Where besides what the fabric counts for a target reset fits the field of a reply: the counts that wait to be told are right and of their posts' kinds in
/// the world that any case leads to, and what the fabric counts fits there.
pub fn counts_are_kept()
    ensures { (w : World) (h : History) (c : Case) → Facts w h → NothingIsStrange w → AbortsAreAccepted w → FabricAnswers w h → CountsFit w → CountsKept (happens w c) (history_after h (entries w c)) }
{}

/// In the first world of any setting the fabric has counted nothing.
pub fn counts_fit_at_first()
    ensures { (s : Setting) → CountsFit (first_world s) }
{}
