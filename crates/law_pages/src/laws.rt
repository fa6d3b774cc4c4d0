//! The laws.
ghost use Rattle.mpt_wire.specs.Handles.Pages.{PagedAsks, paged_next};
ghost use Rattle.mpt_wire.specs.Walks.Passes.{Passes};
ghost use Rattle.mpt_rules.specs.Law.{NothingIsStrange};
ghost use Rattle.mpt_rules.specs.World.Cases.{Case, entries, happens};
ghost use Rattle.mpt_rules.specs.World.Settings.{Setting, first_world};
ghost use Rattle.mpt_rules.specs.World.State.{World};
ghost use Rattle.law_facts.specs.Facts.{Facts};
ghost use Rattle.law_facts.specs.History.{History, first_history, history_after};
ghost use Rattle.law_pages.specs.Paged.{OtherPagesUnknown, ReadyAreBound};
ghost use Rattle.law_targets.specs.Targets.{OffHostsKnown};

/// Where all facts hold of a world, nothing on its way is strange to its host, and of a host that wasn't started nothing is known, in the world that any
/// case leads to each ready handle of a host that starts or is up is bound to the address that is ready.
pub fn ready_handles_are_bound()
    ensures { (w : World) (h : History) (c : Case) → Facts w h → NothingIsStrange w → OffHostsKnown w h → ReadyAreBound (happens w c) (history_after h (entries w c)) }
{}

/// The rule of pages knows no page of what is no disk's handle, but while a reset goes on: at first, and behind any case of a world of which all facts hold.
pub fn other_pages_stay_unknown()
    ensures first { (s : Setting) → OtherPagesUnknown (first_world s) (first_history s.disks) }
    ensures kept { (w : World) (h : History) (c : Case) → Facts w h → NothingIsStrange w → OtherPagesUnknown w h → OtherPagesUnknown (happens w c) (history_after h (entries w c)) }
{}

/// With that, each submission that a case accepts is for an address of which one handle has a page, and each post that it puts goes to a handle that had a
/// page of its disk as it was accepted.
pub fn posts_go_to_pages()
    ensures { (w : World) (h : History) (c : Case) → Facts w h → NothingIsStrange w → OtherPagesUnknown w h → Passes paged_next PagedAsks h.paged (entries w c) }
{}
