//! The laws.
ghost use Rattle.mpt_wire.specs.Machine.View.{SeenAsks, seen_next};
ghost use Rattle.mpt_wire.specs.Walks.Ahead.{PassesAhead};
ghost use Rattle.mpt_rules.specs.World.Cases.{Case, entries};
ghost use Rattle.mpt_rules.specs.Law.{NothingIsStrange};
ghost use Rattle.mpt_rules.specs.World.State.{World};
ghost use Rattle.law_facts.specs.Facts.{Facts};
ghost use Rattle.law_facts.specs.History.{History};
ghost use Rattle.law_standing.specs.Written.{OutcomesFit};

/// Where all facts hold of a world, nothing on its way is strange to the host, and what disks answered fits the fields of replies, the entries of any case
/// say steps that the machine of disks allows, each in the state that the one before leaves.
pub fn machine_runs()
    ensures { (w : World) (h : History) (c : Case) → Facts w h → NothingIsStrange w → OutcomesFit h → PassesAhead seen_next SeenAsks (record { machine = h.machine; so_far = h.so_far }) (entries w c) }
{}
