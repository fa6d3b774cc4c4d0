//! The laws.
ghost use Rattle.std.specs.Prelude.{List, ℕ};
ghost use Rattle.mpt_trace.specs.declared.disk_spec.DiskSpec.{DiskSpec};
ghost use Rattle.mpt_rules.specs.Law.{NothingIsStrange};
ghost use Rattle.mpt_rules.specs.World.Cases.{Case, entries, happens};
ghost use Rattle.mpt_rules.specs.World.State.{World};
ghost use Rattle.law_facts.specs.Disks.{SameDisk, SameDisks};
ghost use Rattle.law_facts.specs.Facts.{Facts};
ghost use Rattle.law_facts.specs.History.{History, first_history, history_after};
ghost use Rattle.law_messages.specs.Numbers.{AbortsAreAccepted};
ghost use Rattle.law_standing.specs.Written.{OutcomesFit};
ghost use Rattle.law_disks.specs.Machine.{MachineFits, ReadyWasPlugged};

/// Where all facts hold of a world, nothing on its way is strange to the host, what disks answered fits the fields of replies, each open abort is of a number
/// that was accepted, and what is ready was plugged: behind any case what is ready, or was made so, was plugged (so `MadeFits` and `ReadyWasPlugged` hold
/// there), a number that wasn't accepted hasn't run, none is both open and answered, and of an open number the plug was there, it has an outcome exactly if it
/// ran, and it may be terminated where an abort of it or a target reset of its disk is open.
pub fn machine_stays_fit()
    ensures { (w : World) (h : History) (c : Case) → Facts w h → NothingIsStrange w → OutcomesFit h → AbortsAreAccepted w → ReadyWasPlugged h → MachineFits (history_after h (entries w c)).machine }
{}

/// At first nothing is ready.
pub fn ready_was_plugged_at_first()
    ensures { (disks : List DiskSpec) → ReadyWasPlugged (first_history disks) }
{}

/// Where all facts hold of a world and nothing on its way is strange to the host, each disk of the machine is the fabric's, in the world that any case leads to.
pub fn disks_are_the_fabrics()
    ensures { (w : World) (h : History) (c : Case) → Facts w h → NothingIsStrange w → (address : ℕ) → SameDisk (happens w c) (history_after h (entries w c)) address }
{}

/// With the same premises: the machine has the addresses of the fabric's disks, in their order, and fabric and controller have the same phys.
pub fn addresses_are_the_fabrics()
    ensures { (w : World) (h : History) (c : Case) → Facts w h → NothingIsStrange w → SameDisks (happens w c) (history_after h (entries w c)) }
{}
