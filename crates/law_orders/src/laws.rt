//! The laws.
ghost use Rattle.mpt_rules.specs.Law.{NothingIsStrange};
ghost use Rattle.mpt_rules.specs.World.Cases.{Case, happens};
ghost use Rattle.mpt_rules.specs.World.Settings.{Setting, first_world};
ghost use Rattle.mpt_rules.specs.World.State.{World};
ghost use Rattle.law_facts.specs.Facts.{Facts};
ghost use Rattle.law_facts.specs.History.{History};
ghost use Rattle.law_orders.specs.Orders.{OrdersStand};

/// Where all facts hold of a world and nothing on its way is strange to its host, there is at the fabric of each identifier just what the controller
/// keeps of it in the world that any case leads to; behind a reset's write, before its link is back, what was left there at most, of an open identifier
/// that is nowhere else.
pub fn orders_are_kept()
    ensures { (w : World) (h : History) (c : Case) → Facts w h → NothingIsStrange w → OrdersStand (happens w c) }
{}

/// So it is in the first world of any setting.
pub fn orders_stand_at_first()
    ensures { (s : Setting) → OrdersStand (first_world s) }
{}
