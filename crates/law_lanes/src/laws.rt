//! The laws.
ghost use Rattle.mpt_wire.specs.Queues.Marks.{ReplyLaneAsks};
ghost use Rattle.mpt_wire.specs.Walks.Passes.{EachEntry};
ghost use Rattle.mpt_rules.specs.Law.{NothingIsStrange};
ghost use Rattle.mpt_rules.specs.World.Cases.{Case, entries};
ghost use Rattle.mpt_rules.specs.World.State.{World, queues_of};
ghost use Rattle.law_facts.specs.Facts.{Facts};
ghost use Rattle.law_facts.specs.History.{History};

/// Where all facts hold of a world and nothing on its way is strange to its host, each reply that a case puts is on the lane of its identifier's queue, each
/// value on the first, and each mark on a lane above it.
pub fn replies_keep_their_lanes()
    ensures { (w : World) (h : History) (c : Case) → Facts w h → NothingIsStrange w → EachEntry (ReplyLaneAsks (queues_of w)) (entries w c) }
{}
