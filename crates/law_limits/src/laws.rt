//! The laws.
ghost use Rattle.mpt_rules.specs.Law.{NothingIsStrange};
ghost use Rattle.mpt_rules.specs.World.Cases.{Case, happens};
ghost use Rattle.mpt_rules.specs.World.State.{World};
ghost use Rattle.law_facts.specs.Facts.{Facts};
ghost use Rattle.law_facts.specs.History.{History};
ghost use Rattle.law_facts.specs.Limits.{Limits};
ghost use Rattle.law_limits.specs.HandlesNamed.{HandlesNamed};
ghost use Rattle.law_limits.specs.Wiring.{WiringFits};

/// Where all facts hold of a world and nothing on its way is strange to its host, the disks, the expanders, the bindings, the disks that wait for a handle,
/// the event contexts and the notices of plugs are within the limits in the world that any case leads to.
pub fn wiring_is_kept()
    ensures { (w : World) (h : History) (c : Case) → Facts w h → NothingIsStrange w → WiringFits (happens w c) }
{}

/// With the same premises: the handles that the host's records, its waiting requests and its open numbers name are those of disks, in the world that any
/// case leads to.
pub fn handles_are_of_disks()
    ensures { (w : World) (h : History) (c : Case) → Facts w h → NothingIsStrange w → HandlesNamed (happens w c) }
{}

/// With the same premises, all limits hold in the world that any case leads to.
pub fn limits_are_kept()
    ensures { (w : World) (h : History) (c : Case) → Facts w h → NothingIsStrange w → Limits (happens w c) }
{}
