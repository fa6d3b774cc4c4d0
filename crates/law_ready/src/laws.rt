//! The laws.
ghost use Rattle.mpt_rules.specs.Law.{NothingIsStrange};
ghost use Rattle.mpt_rules.specs.World.Cases.{Case, entries, happens};
ghost use Rattle.mpt_rules.specs.World.Settings.{Setting, first_world};
ghost use Rattle.mpt_rules.specs.World.State.{World};
ghost use Rattle.law_facts.specs.Facts.{Facts};
ghost use Rattle.law_facts.specs.History.{History, first_history, history_after};
ghost use Rattle.law_ready.specs.Ready.{AddressesReady, HandlesReady, OffReady};

/// Where all facts hold of a world, nothing on its way is strange to its host, and what is ready stands also of a host that wasn't started: the plug of
/// each ready handle is the one that is ready, and was made so last, in the world that any case leads to.
pub fn plugs_of_handles_are_ready()
    ensures { (w : World) (h : History) (c : Case) → Facts w h → NothingIsStrange w → OffReady w h → HandlesReady (happens w c) (history_after h (entries w c)) }
{}

/// With the same premises: one handle is ready for an address exactly where a plug of it is.
pub fn one_handle_is_ready()
    ensures { (w : World) (h : History) (c : Case) → Facts w h → NothingIsStrange w → OffReady w h → AddressesReady (happens w c) (history_after h (entries w c)) }
{}

/// And so it is of a host that wasn't started: at first, and behind any case of a world of which all facts hold.
pub fn off_hosts_stay_ready()
    ensures first { (s : Setting) → OffReady (first_world s) (first_history s.disks) }
    ensures kept { (w : World) (h : History) (c : Case) → Facts w h → NothingIsStrange w → OffReady w h → OffReady (happens w c) (history_after h (entries w c)) }
{}
