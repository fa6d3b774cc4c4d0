//! The laws.
ghost use Rattle.std.specs.Prelude.{ℕ};
ghost use Rattle.mpt_wire.specs.Paths.Stops.{StopAsks, stopping_next};
ghost use Rattle.mpt_wire.specs.Walks.Passes.{Passes};
ghost use Rattle.mpt_rules.specs.Law.{NothingIsStrange};
ghost use Rattle.mpt_rules.specs.World.Cases.{Case, entries, happens};
ghost use Rattle.mpt_rules.specs.World.Settings.{Setting, first_world};
ghost use Rattle.mpt_rules.specs.World.State.{World};
ghost use Rattle.law_facts.specs.Facts.{Facts};
ghost use Rattle.law_facts.specs.History.{History, first_history, history_after};
ghost use Rattle.law_places.specs.Further.{VectorsFit};
ghost use Rattle.law_paths.specs.Paths.{FurtherPaths};
ghost use Rattle.law_stops.specs.Stops.{EndsAgree};
ghost use Rattle.law_targets.specs.Targets.{NoOrdersBeforeInit};
ghost use Rattle.law_stopping.specs.Stopping.{LivesAreFair, RepliesAwaited, TargetsKnown, TurnsKnown};

/// Where all facts hold of a world, nothing on its way is strange to its host, a controller that isn't OPERATIONAL has no task to put, and no reply to a command
/// says something else where one said that it was stopped: the entries of any case pass the rule of what aborts stop. A reply to an abort is awaited, and
/// an abort that took its command out of the queue did so once, of a command that has no task and no other reply.
pub fn stops_pass()
    ensures { (w : World) (h : History) (c : Case) → Facts w h → NothingIsStrange w → NoOrdersBeforeInit w → EndsAgree h → (s : ℕ) → Passes (stopping_next s) (StopAsks s) (h.stopping s) (entries w c) }
{}

/// So each life is fair behind the case.
pub fn lives_stay_fair()
    ensures { (w : World) (h : History) (c : Case) → Facts w h → NothingIsStrange w → NoOrdersBeforeInit w → EndsAgree h → LivesAreFair (history_after h (entries w c)) }
{}

/// Where all facts hold of a world, nothing on its way is strange to its host, no IOC Init asked for too many queues, and the view knows what was put under an
/// identifier of task management, whether that is at the controller still or a reset dropped it: the view knows this in the world that any case leads to, and
/// there it knows which posts past the host's outbox are target resets.
pub fn targets_are_known()
    ensures { (w : World) (h : History) (c : Case) → Facts w h → NothingIsStrange w → VectorsFit w → TurnsKnown w h → TargetsKnown (happens w c) (history_after h (entries w c)) }
{}

/// In the first world of any setting no identifier has begun its cycle.
pub fn turns_are_known_at_first()
    ensures { (s : Setting) → TurnsKnown (first_world s) (first_history s.disks) }
{}

/// Where all facts and the further ones of paths hold of a world and nothing on its way is strange to its host: in the world that any case leads to, each open
/// command to which no reply was put has had a task put exactly where its path says so, and nothing was said of it.
pub fn replies_are_awaited()
    ensures { (w : World) (h : History) (c : Case) → Facts w h → NothingIsStrange w → FurtherPaths w h → RepliesAwaited (happens w c) (history_after h (entries w c)) }
{}
