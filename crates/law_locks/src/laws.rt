//! The laws.
ghost use Rattle.mpt_rules.specs.World.Cases.{Case, happens};
ghost use Rattle.mpt_rules.specs.Law.{NothingIsStrange};
ghost use Rattle.mpt_rules.specs.World.Settings.{Setting, first_world};
ghost use Rattle.mpt_rules.specs.World.State.{World};
ghost use Rattle.law_facts.specs.DoorAhead.{DoorRests, LockStep, StageFits};
ghost use Rattle.law_facts.specs.Facts.{Facts};
ghost use Rattle.law_facts.specs.Flights.{Sizes};
ghost use Rattle.law_facts.specs.History.{History};
ghost use Rattle.law_starts.specs.Starts.{StartsStand};
ghost use Rattle.law_locks.specs.Locks.{HandshakesStand};

/// Where all facts, those of a start and those of a handshake hold of a world, and nothing on its way is strange to its host, those of a handshake hold of
/// the world that any case leads to.
pub fn handshakes_are_kept()
    ensures { (w : World) (h : History) (c : Case) → Facts w h → NothingIsStrange w → StartsStand w → HandshakesStand w → HandshakesStand (happens w c) }
{}

/// The facts of a handshake hold of the first world of any setting.
pub fn handshakes_stand_at_first()
    ensures { (s : Setting) → HandshakesStand (first_world s) }
{}

/// Where all facts, those of a start and those of a handshake hold of a world, and nothing on its way is strange to its host, in the world that any case
/// leads to no handshake is open and no interrupt is left where the door rests; a start without a machine found the controller OPERATIONAL, and a start's
/// look finds it READY.
pub fn doors_rest()
    ensures { (w : World) (h : History) (c : Case) → Facts w h → NothingIsStrange w → StartsStand w → HandshakesStand w → DoorRests (happens w c) }
{}

/// Where the facts of a handshake and of a start hold of a world whose tables have their lengths, and whose host's machine waits as it should, host and
/// controller go on in lock step: alone they lead to the message's being asked and to the end of its reply.
pub fn handshakes_go_in_lock_step()
    ensures { (w : World) → HandshakesStand w → StartsStand w → StageFits w → Sizes w → LockStep w }
{}
