//! The laws.
ghost use Rattle.mpt_rules.specs.Law.{NothingIsStrange};
ghost use Rattle.mpt_rules.specs.World.Cases.{Case, entries, happens};
ghost use Rattle.mpt_rules.specs.World.Settings.{Setting, first_world};
ghost use Rattle.mpt_rules.specs.World.State.{World};
ghost use Rattle.law_facts.specs.Facts.{Facts};
ghost use Rattle.law_facts.specs.History.{History, first_history, history_after};
ghost use Rattle.law_bells.specs.Talks.{TalksStand};
ghost use Rattle.law_bell_status.specs.Bells.{BellStands};
ghost use Rattle.law_bell_status.specs.Shown.{BellKept, BellPasses};

/// Where all facts, the further ones of the doorbell and those of the interrupt status hold of a world, and nothing on its way is strange to its host, the
/// rule of the interrupt status has what the door shows in the world that any case leads to, and its further facts stand there.
pub fn bells_are_kept()
    ensures { (w : World) (h : History) (c : Case) → Facts w h → NothingIsStrange w → TalksStand w → BellStands w h.bell → BellKept (happens w c) (history_after h (entries w c)) }
{}

/// And in the entries of the case each value of HostInterruptStatus that is put is the status as the read was taken.
pub fn statuses_are_right()
    ensures { (w : World) (h : History) (c : Case) → Facts w h → NothingIsStrange w → TalksStand w → BellStands w h.bell → BellPasses h (entries w c) }
{}

/// Nothing rings in the first world of any setting.
pub fn bells_stand_at_first()
    ensures { (s : Setting) → BellStands (first_world s) (first_history s.disks).bell }
{}
