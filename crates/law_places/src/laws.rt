//! The laws.
ghost use Rattle.mpt_rules.specs.Law.{NothingIsStrange};
ghost use Rattle.mpt_rules.specs.World.Cases.{Case, entries, happens};
ghost use Rattle.mpt_rules.specs.World.Settings.{Setting, first_world};
ghost use Rattle.mpt_rules.specs.World.State.{World};
ghost use Rattle.law_facts.specs.DoorAhead.{Doorbell};
ghost use Rattle.law_facts.specs.Facts.{Facts};
ghost use Rattle.law_facts.specs.History.{History, history_after};
ghost use Rattle.law_bells.specs.Talks.{TalksStand};
ghost use Rattle.law_places.specs.Further.{VectorsFit};
ghost use Rattle.law_places.specs.Shown.{HavePlaces, ShownPlaces, TurnsKept};

/// Where all facts hold of a world, each identifier and each reply frame has one place in it, or none where a reset that goes on dropped its item.
pub fn facts_give_places()
    ensures { (w : World) (h : History) → Facts w h → HavePlaces w }
{}

/// Where all facts hold of a world and nothing on its way is strange to its host, each identifier and each reply frame has its place in the world that any
/// case leads to, in the turn of that place, and target resets wait there for commands of gone handles alone.
pub fn places_are_kept()
    ensures { (w : World) (h : History) (c : Case) → Facts w h → NothingIsStrange w → VectorsFit w → ShownPlaces (happens w c) (history_after h (entries w c)) }
{}

/// And the entries of the case go on in the cycles of identifiers and of reply frames.
pub fn cycles_are_kept()
    ensures { (w : World) (h : History) (c : Case) → Facts w h → NothingIsStrange w → VectorsFit w → TurnsKept h (entries w c) }
{}

/// No IOC Init asked for more reply queues than there are: at first, and behind any case of a world of which all facts hold.
pub fn vectors_stay_few()
    ensures first { (s : Setting) → VectorsFit (first_world s) }
    ensures kept { (w : World) (h : History) (c : Case) → Facts w h → NothingIsStrange w → VectorsFit w → VectorsFit (happens w c) }
{}

/// Where all facts and the further ones of the doorbell hold of a world, and nothing on its way is strange to its host, all facts of the doorbell hold of
/// the world that any case leads to.
pub fn doorbells_stand()
    ensures { (w : World) (h : History) (c : Case) → Facts w h → NothingIsStrange w → TalksStand w → Doorbell (happens w c) }
{}
