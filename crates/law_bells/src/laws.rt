//! The laws.
ghost use Rattle.mpt_rules.specs.World.Cases.{Case, happens};
ghost use Rattle.mpt_rules.specs.Law.{NothingIsStrange};
ghost use Rattle.mpt_rules.specs.World.Settings.{Setting, first_world};
ghost use Rattle.mpt_rules.specs.World.State.{World};
ghost use Rattle.law_facts.specs.DoorAhead.{Doorbell};
ghost use Rattle.law_facts.specs.Facts.{Facts};
ghost use Rattle.law_facts.specs.Flights.{Sizes};
ghost use Rattle.law_facts.specs.History.{History};
ghost use Rattle.law_bells.specs.Talks.{TalksStand};

/// Where all facts and the further ones of the doorbell hold of a world, and nothing on its way is strange to its host, the further ones hold of the world
/// that any case leads to.
pub fn talks_are_kept()
    ensures { (w : World) (h : History) (c : Case) → Facts w h → NothingIsStrange w → TalksStand w → TalksStand (happens w c) }
{}

/// The further facts of the doorbell hold of the first world of any setting.
pub fn talks_stand_at_first()
    ensures { (s : Setting) → TalksStand (first_world s) }
{}

/// Where all facts and the further ones of the doorbell hold of a world, and nothing on its way is strange to its host, all facts of the doorbell hold of
/// the world that any case leads to, if its tables have their lengths.
pub fn doorbells_are_kept()
    ensures { (w : World) (h : History) (c : Case) → Facts w h → NothingIsStrange w → TalksStand w → Sizes (happens w c) → Doorbell (happens w c) }
{}
