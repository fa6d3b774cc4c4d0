//! The laws.
ghost use Rattle.std.specs.Prelude.{ℕ, ◌<◌, ◌≤◌};
ghost use Rattle.mpt_wire.specs.Queues.Marks.{MarkAsks, marks_next};
ghost use Rattle.mpt_wire.specs.Walks.Passes.{Passes};
ghost use Rattle.mpt_rules.specs.Law.{NothingIsStrange};
ghost use Rattle.mpt_rules.specs.World.Cases.{Case, entries};
ghost use Rattle.mpt_rules.specs.World.State.{World, queues_of};
ghost use Rattle.law_facts.specs.Facts.{Facts};
ghost use Rattle.law_facts.specs.History.{History};

/// Where all facts hold of a world and nothing on its way is strange to its host, on each lane above the first the entries of any case put the mark of a reset
/// where it is due and nowhere else, and a reset is told as done only where its mark was taken there.
pub fn lanes_are_marked()
    ensures { (w : World) (h : History) (c : Case) → Facts w h → NothingIsStrange w → (queue : ℕ) → 1 ≤ queue → queue < queues_of w → Passes (marks_next queue) (MarkAsks queue) (h.marking queue) (entries w c) }
{}
