//! The laws.
ghost use Rattle.std.specs.Prelude.{List, None, ◌≡◌};
ghost use Rattle.mpt_trace.specs.declared.entry.Entry.{Entry};
ghost use Rattle.mpt_wire.specs.Handles.Plugs.{nothing_bound, served_next};
ghost use Rattle.mpt_wire.specs.Messages.Told.{HearingAsks, hearing_next};
ghost use Rattle.mpt_wire.specs.Walks.Passes.{Passes, state_after};
ghost use Rattle.mpt_rules.specs.World.Cases.{Case, entries, happens};
ghost use Rattle.mpt_rules.specs.World.Settings.{IsCase, Setting, first_world};
ghost use Rattle.mpt_rules.specs.World.State.{World, queues_of};
ghost use Rattle.law_facts.specs.Facts.{Facts};
ghost use Rattle.law_facts.specs.History.{History, first_history, history_after};
ghost use Rattle.law.specs.Further.{Further, Whole};
ghost use Rattle.law.specs.Missing.{Missing};
ghost use Rattle.law.specs.Passed.{CarriedByRules, Passed};

/// What goes along the induction beside the facts holds of the first world of any setting, and where the facts and it hold of a world, it holds of the world
/// that any allowed case leads to.
pub fn further_facts_are_kept()
    ensures first { (s : Setting) → Further (first_world s) (first_history s.disks) }
    ensures kept { (w : World) (h : History) (c : Case) → IsCase c → Whole w h → Further (happens w c) (history_after h (entries w c)) }
{}

/// With that, each case keeps all facts but those that are listed as missing: where these hold of the world behind the case, all do.
pub fn facts_are_kept_but_for_the_missing()
    ensures { (w : World) (h : History) (c : Case) → Whole w h → Missing (happens w c) (history_after h (entries w c)) → Facts (happens w c) (history_after h (entries w c)) }
{}

/// And the entries of the case pass every rule where they pass that of what the host tells.
pub fn cases_pass_but_for_the_told()
    ensures { (w : World) (h : History) (c : Case) → Whole w h → Passes hearing_next HearingAsks h.hearing (entries w c) → Passed (queues_of w) h (entries w c) }
{}

/// Of a trace that passes every rule, from where nothing was said, and at whose end no plug is due to be bound, the law holds as far as rules carry it.
pub fn rules_carry_the_law()
    ensures { (s : Setting) (t : List Entry) → Passed s.queues (first_history s.disks) t → (state_after served_next nothing_bound t).due ≡ None → CarriedByRules s t }
{}
