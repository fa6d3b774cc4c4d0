//! The laws.
ghost use Rattle.std.specs.Prelude.{ℕ, length, ◌≤◌};
ghost use Rattle.mpt_rules.specs.Law.{NothingIsStrange};
ghost use Rattle.mpt_rules.specs.World.Cases.{Case, entries, happens};
ghost use Rattle.mpt_rules.specs.World.Settings.{Setting, first_world};
ghost use Rattle.mpt_rules.specs.World.State.{World};
ghost use Rattle.law_facts.specs.Facts.{Facts};
ghost use Rattle.law_facts.specs.History.{History, history_after};
ghost use Rattle.law_facts.specs.Notices.{Noticed, Notices, NoticesFit, PlugsBound};
ghost use Rattle.law_notices.specs.Further.{DisksStandApart, DisksWerePlugged};

/// Where all facts hold of a world and nothing on its way is strange to its host, there are no more disks than handles, in the world that any case leads to.
pub fn few_disks_are_there()
    ensures { (w : World) (h : History) (c : Case) → Facts w h → NothingIsStrange w → length (happens w c).fabric.disks ≤ 64 }
{}

/// With the same premises: notices are plugs and unplugs, at expanders that are there, and the controller knows of no disk while the fabric is off.
pub fn notices_stay_fit()
    ensures { (w : World) (h : History) (c : Case) → Facts w h → NothingIsStrange w → NoticesFit (happens w c) }
{}

/// One more fact goes with them, that each plugged disk stands alone at a phy that is there: at first, and behind any case of a world of which all facts hold.
pub fn disks_stand_apart()
    ensures first { (s : Setting) → DisksStandApart (first_world s) }
    ensures kept { (w : World) (h : History) (c : Case) → Facts w h → NothingIsStrange w → DisksStandApart w → DisksStandApart (happens w c) }
{}

/// With it, the notices on their way lead from what the controller knows of each disk to how the disk stands, and what it knows has the plug that was told
/// last, in the world that any case leads to.
pub fn notices_lead()
    ensures { (w : World) (h : History) (c : Case) → Facts w h → NothingIsStrange w → DisksStandApart w → (address : ℕ) → Noticed (happens w c) address }
{}

/// Another further fact: the plugs of disks that are present, and of those that wait for a handle, are numbered from 1 on. At first, and behind any case.
pub fn disks_were_plugged()
    ensures first { (s : Setting) → DisksWerePlugged (first_world s) }
    ensures kept { (w : World) (h : History) (c : Case) → Facts w h → NothingIsStrange w → DisksWerePlugged w → DisksWerePlugged (happens w c) }
{}

/// With both, a plug that is bound was told, and that of a gone handle has ended, in the world that any case leads to.
pub fn bound_plugs_were_told()
    ensures { (w : World) (h : History) (c : Case) → Facts w h → NothingIsStrange w → DisksStandApart w → DisksWerePlugged w → (handle : ℕ) → PlugsBound (happens w c) (history_after h (entries w c)) handle }
{}

/// And so all facts of notices.
pub fn notices_are_kept()
    ensures { (w : World) (h : History) (c : Case) → Facts w h → NothingIsStrange w → DisksStandApart w → DisksWerePlugged w → Notices (happens w c) (history_after h (entries w c)) }
{}
