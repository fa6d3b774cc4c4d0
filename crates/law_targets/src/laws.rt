//! The laws.
ghost use Rattle.mpt_wire.specs.Handles.Bindings.{bound_next};
ghost use Rattle.mpt_wire.specs.Handles.Pages.{PageAsks};
ghost use Rattle.mpt_wire.specs.Handles.Tasks.{TaskAsks, aiming_next};
ghost use Rattle.mpt_wire.specs.Walks.Passes.{Passes};
ghost use Rattle.mpt_rules.specs.Law.{NothingIsStrange};
ghost use Rattle.mpt_rules.specs.World.Cases.{Case, entries, happens};
ghost use Rattle.mpt_rules.specs.World.Settings.{Setting, first_world};
ghost use Rattle.mpt_rules.specs.World.State.{World};
ghost use Rattle.law_facts.specs.Facts.{Facts};
ghost use Rattle.law_facts.specs.History.{History, first_history, history_after};
ghost use Rattle.law_messages.specs.Numbers.{AbortsAreAccepted};
ghost use Rattle.law_returns.specs.Further.{FurtherFlights};
ghost use Rattle.law_targets.specs.Targets.{CommandsAimed, CommandsBound, NoOrdersBeforeInit, OffHostsKnown, PagesKnown, PlugsAreTold};

/// Where all facts hold of a world, what the view knows as the last plug of a handle is the plug to which it is bound, behind what
/// the entries of any case say.
pub fn plugs_are_told()
    ensures { (w : World) (h : History) (c : Case) → Facts w h → PlugsAreTold (history_after h (entries w c)) }
{}

/// Where all facts hold of a world, nothing on its way is strange to its host, and the further facts of messages and of what is on its way hold, a
/// command on its way or at the fabric has the handle of the plug for which it was accepted, in the world that any case leads to.
pub fn commands_stay_bound()
    ensures { (w : World) (h : History) (c : Case) → Facts w h → NothingIsStrange w → AbortsAreAccepted w → FurtherFlights w → CommandsBound (happens w c) (history_after h (entries w c)) }
{}

/// With the same premises: each open command goes to a handle that had a page of its disk as it was accepted, and once it is posted the rule of tasks
/// knows it by that handle.
pub fn commands_stay_aimed()
    ensures { (w : World) (h : History) (c : Case) → Facts w h → NothingIsStrange w → AbortsAreAccepted w → FurtherFlights w → CommandsAimed (happens w c) (history_after h (entries w c)) }
{}

/// Where all facts hold of a world, nothing on its way is strange to its host, and of a host that wasn't started nothing is known, the rules on the wire
/// know of a host that starts or is up which handles were added, and of which it has a page with which address, in the world that any case leads to.
pub fn pages_stay_known()
    ensures { (w : World) (h : History) (c : Case) → Facts w h → NothingIsStrange w → OffHostsKnown w h → PagesKnown (happens w c) (history_after h (entries w c)) }
{}

/// And that nothing is known of a host that wasn't started: at first, and behind any case of a world of which all facts hold.
pub fn off_hosts_stay_unknown()
    ensures first { (s : Setting) → OffHostsKnown (first_world s) (first_history s.disks) }
    ensures kept { (w : World) (h : History) (c : Case) → Facts w h → NothingIsStrange w → OffHostsKnown w h → OffHostsKnown (happens w c) (history_after h (entries w c)) }
{}

/// A controller that isn't OPERATIONAL has no order for the fabric in its outbox: at first, and behind any case of a world of which all facts hold.
pub fn orders_wait_for_init()
    ensures first { (s : Setting) → NoOrdersBeforeInit (first_world s) }
    ensures kept { (w : World) (h : History) (c : Case) → Facts w h → NothingIsStrange w → NoOrdersBeforeInit w → NoOrdersBeforeInit (happens w c) }
{}

/// With that, each task that the entries of a case put has the address to which the handle of its post is bound, and each device page that of its handle.
pub fn tasks_go_to_their_disks()
    ensures tasks { (w : World) (h : History) (c : Case) → Facts w h → NothingIsStrange w → NoOrdersBeforeInit w → Passes aiming_next TaskAsks h.aiming (entries w c) }
    ensures pages { (w : World) (h : History) (c : Case) → Facts w h → NothingIsStrange w → NoOrdersBeforeInit w → Passes bound_next PageAsks h.aiming.bound (entries w c) }
{}
