//! The laws.
ghost use Rattle.mpt_rules.specs.World.Cases.{Case, happens};
ghost use Rattle.mpt_rules.specs.Law.{NothingIsStrange};
ghost use Rattle.mpt_rules.specs.World.Settings.{Setting, first_world};
ghost use Rattle.mpt_rules.specs.World.State.{World};
ghost use Rattle.law_facts.specs.DoorAhead.{DoorIsSound, InitQueues};
ghost use Rattle.law_facts.specs.Facts.{Facts};
ghost use Rattle.law_facts.specs.Flights.{Sizes};
ghost use Rattle.law_facts.specs.History.{History};
ghost use Rattle.law_starts.specs.Starts.{LiveAtInit, OffIsFresh, StartFindsReady, StartsStand};

/// Where all facts and those of a start hold of a world, and nothing on its way is strange to its host, those of a start hold of the world that any case
/// leads to.
pub fn starts_are_kept()
    ensures { (w : World) (h : History) (c : Case) → Facts w h → NothingIsStrange w → StartsStand w → StartsStand (happens w c) }
{}

/// The facts of a start hold of the first world of any setting.
pub fn starts_stand_at_first()
    ensures { (s : Setting) → StartsStand (first_world s) }
{}

/// Where the facts of a start hold of a world whose tables have their lengths, a controller that is OPERATIONAL has as many vectors as its host has reply
/// queues.
pub fn init_asks_for_all_queues()
    ensures { (w : World) → StartsStand w → Sizes w → InitQueues w }
{}

/// Where all facts and those of a start hold of a world, and nothing on its way is strange to its host, the door is sound in the world that any case leads
/// to: no FAULT is ahead, no reset is held, and no link waits.
pub fn doors_stay_sound()
    ensures { (w : World) (h : History) (c : Case) → Facts w h → NothingIsStrange w → StartsStand w → DoorIsSound (happens w c) }
{}

/// Where all facts and those of a start hold of a world, and nothing on its way is strange to its host, a start finds the controller READY in the world
/// that any case leads to.
pub fn starts_find_ready()
    ensures { (w : World) (h : History) (c : Case) → Facts w h → NothingIsStrange w → StartsStand w → StartFindsReady (happens w c) }
{}

/// Where all facts and those of a start hold of a world, and nothing on its way is strange to its host, in the world that any case leads to a start's
/// machine that finds the controller OPERATIONAL is at IOC Init.
pub fn starts_come_up_by_init()
    ensures { (w : World) (h : History) (c : Case) → Facts w h → NothingIsStrange w → StartsStand w → LiveAtInit (happens w c) }
{}

/// Where all facts hold of a world and nothing on its way is strange to its host, a host that wasn't started has nothing in the world that any case leads to.
pub fn off_hosts_have_nothing()
    ensures { (w : World) (h : History) (c : Case) → Facts w h → NothingIsStrange w → OffIsFresh (happens w c) }
{}
