//! The laws.
ghost use Rattle.std.specs.Prelude.{ℕ};
ghost use Rattle.mpt_rules.specs.Law.{NothingIsStrange};
ghost use Rattle.mpt_rules.specs.World.Cases.{Case, entries, happens};
ghost use Rattle.mpt_rules.specs.World.State.{World};
ghost use Rattle.law_facts.specs.Disks.{SameNumber, SameResets};
ghost use Rattle.law_facts.specs.Facts.{Facts};
ghost use Rattle.law_facts.specs.History.{History, history_after};
ghost use Rattle.law_numbers.specs.Tallies.{SameTallies};

/// Where all facts hold of a world and nothing on its way is strange to the host, the machine's open requests, its open aborts and its answered numbers are
/// the host's, in the world that any case leads to.
pub fn numbers_are_the_hosts()
    ensures { (w : World) (h : History) (c : Case) → Facts w h → NothingIsStrange w → (n : ℕ) → SameNumber (happens w c) (history_after h (entries w c)) n }
{}

/// With the same premises: of each address the machine has as many open target resets as the host's identifiers.
pub fn resets_are_the_hosts()
    ensures { (w : World) (h : History) (c : Case) → Facts w h → NothingIsStrange w → (address : ℕ) → SameResets (happens w c) (history_after h (entries w c)) address }
{}

/// With the same premises: the machine's mode is the host's, it has as many open requests as the host has open identifiers of SCSI IOs, and as many open
/// target resets.
pub fn tallies_are_the_hosts()
    ensures { (w : World) (h : History) (c : Case) → Facts w h → NothingIsStrange w → SameTallies (happens w c) (history_after h (entries w c)) }
{}
