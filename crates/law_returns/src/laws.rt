//! The laws.
ghost use Rattle.mpt_rules.specs.Law.{NothingIsStrange};
ghost use Rattle.mpt_rules.specs.World.Cases.{Case, entries, happens};
ghost use Rattle.mpt_rules.specs.World.Settings.{Setting, first_world};
ghost use Rattle.mpt_rules.specs.World.State.{World};
ghost use Rattle.law_facts.specs.Facts.{Facts};
ghost use Rattle.law_facts.specs.Flights.{Flights};
ghost use Rattle.law_facts.specs.History.{History, history_after};
ghost use Rattle.law_returns.specs.Further.{FurtherFlights, HoldsNone};

/// Where all facts hold of a world and nothing on its way is strange to its host, a host that is up, or whose start has only messages to come, holds no
/// reply frame in the world that any case leads to: each is on its way, or with the controller.
pub fn frames_are_returned()
    ensures { (w : World) (h : History) (c : Case) → Facts w h → NothingIsStrange w → HoldsNone (happens w c) }
{}

/// With the two further facts: all facts of what is on its way, of identifiers, numbers, reply frames and what is at the fabric, hold of the world that any
/// case leads to, behind what its entries say.
pub fn flights_are_kept()
    ensures { (w : World) (h : History) (c : Case) → Facts w h → NothingIsStrange w → FurtherFlights w → Flights (happens w c) (history_after h (entries w c)) }
{}

/// And the two further facts: they hold of the first world of any setting, and each case keeps them.
pub fn further_flights_are_kept()
    ensures first { (s : Setting) → FurtherFlights (first_world s) }
    ensures kept { (w : World) (h : History) (c : Case) → Facts w h → NothingIsStrange w → FurtherFlights w → FurtherFlights (happens w c) }
{}
