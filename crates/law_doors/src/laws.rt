//! The laws.
ghost use Rattle.mpt_rules.specs.World.Cases.{Case, entries, happens};
ghost use Rattle.mpt_rules.specs.Law.{NothingIsStrange};
ghost use Rattle.mpt_rules.specs.World.State.{World};
ghost use Rattle.law_facts.specs.Facts.{Facts};
ghost use Rattle.law_facts.specs.History.{History, history_after};
ghost use Rattle.law_doors.specs.Shown.{ResetsAreHeeded, ShownDoors};

/// Where all facts hold of a world and nothing on its way is strange to its host, the clock of resets, its marks, and of the doorbell the stage of the
/// host's machine and the end of its start stand in the world that any case leads to; and no case leads to a fault.
pub fn doors_are_kept()
    ensures { (w : World) (h : History) (c : Case) → Facts w h → NothingIsStrange w → ShownDoors (happens w c) (history_after h (entries w c)) }
{}

/// Where all facts hold of a world, the write that begins a reset has a reset's effect as the controller takes it.
pub fn reset_writes_are_heeded()
    ensures { (w : World) (h : History) → Facts w h → ResetsAreHeeded w }
{}
