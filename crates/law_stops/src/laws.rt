//! The laws.
ghost use Rattle.std.specs.Prelude.{List};
ghost use Rattle.mpt_trace.specs.declared.entry.Entry.{Entry};
ghost use Rattle.mpt_rules.specs.Law.{NothingIsStrange};
ghost use Rattle.mpt_rules.specs.World.Cases.{Case, entries};
ghost use Rattle.mpt_rules.specs.World.Settings.{Setting};
ghost use Rattle.mpt_rules.specs.World.State.{World};
ghost use Rattle.law_facts.specs.Facts.{Facts};
ghost use Rattle.law_facts.specs.History.{History, first_history, history_after};
ghost use Rattle.law_stops.specs.Stops.{EndsAgree, HighsAgree};

/// Whatever entries come, the rule of what aborts stop goes on to have, for each command, what the rule of counts has open under each identifier.
pub fn highs_agree()
    ensures { (h : History) (t : List Entry) → HighsAgree h → HighsAgree (history_after h t) }
{}

/// Where all facts hold of a world and nothing on its way is strange to its host: if no reply to a command says something else where one said that it was
/// stopped, it's so behind the entries of any case.
pub fn ends_stay_agreed()
    ensures { (w : World) (h : History) (c : Case) → Facts w h → NothingIsStrange w → EndsAgree h → EndsAgree (history_after h (entries w c)) }
{}

/// At first nothing was said of a command.
pub fn ends_agree_at_first()
    ensures { (s : Setting) → EndsAgree (first_history s.disks) }
{}
