//! The laws.
ghost use Rattle.mpt_rules.specs.World.Settings.{Setting, first_world};
ghost use Rattle.law_facts.specs.Clock.{Clock};
ghost use Rattle.law_facts.specs.DoorAhead.{Doorbell};
ghost use Rattle.law_facts.specs.Facts.{FactsAtFirst};
ghost use Rattle.law_facts.specs.History.{first_history};

/// The facts of the clock of resets hold of the first world of any setting, with what the rules on the wire know of resets before any entry.
pub fn clocks_stand_at_first()
    ensures { (s : Setting) → Clock (first_world s) (first_history s.disks) }
{}

/// So do those of the doorbell.
pub fn doorbells_stand_at_first()
    ensures { (s : Setting) → Doorbell (first_world s) }
{}

/// All facts hold of the first world of any setting within the limits.
pub fn facts_stand_at_first()
    ensures { FactsAtFirst }
{}
