//! The laws.
ghost use Rattle.mpt_rules.specs.Law.{NothingIsStrange};
ghost use Rattle.mpt_rules.specs.World.Cases.{Case, happens};
ghost use Rattle.mpt_rules.specs.World.Settings.{Setting, first_world};
ghost use Rattle.mpt_rules.specs.World.State.{World};
ghost use Rattle.law_facts.specs.Facts.{Facts};
ghost use Rattle.law_facts.specs.History.{History};
ghost use Rattle.law_places.specs.Further.{VectorsFit};
ghost use Rattle.law_records.specs.Records.{AbortsAreKnown, RecordsStand};

/// Where all facts hold of a world and nothing on its way is strange to its host, what is open under each identifier is what the host has of it by its
/// number in the world that any case leads to, what an abort names is open there, or parked for that abort alone, and each number names open records.
pub fn records_are_kept()
    ensures { (w : World) (h : History) (c : Case) → Facts w h → NothingIsStrange w → VectorsFit w → AbortsAreKnown w → RecordsStand (happens w c) }
{}

/// So it is in the first world of any setting.
pub fn records_stand_at_first()
    ensures { (s : Setting) → RecordsStand (first_world s) }
{}
