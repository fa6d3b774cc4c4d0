//! The laws.
ghost use Rattle.std.specs.Prelude.{List, Some, is_some, true, ℕ, ◌≡◌, ◌≤◌};
ghost use Rattle.std.specs.FinMap as finmap;
ghost use Rattle.mpt_trace.specs.declared.disk_spec.DiskSpec.{DiskSpec};
ghost use Rattle.mpt_wire.specs.Machine.State.{OpenRequest};
ghost use Rattle.mpt_rules.specs.Host.Parts.{Cmd};
ghost use Rattle.mpt_rules.specs.Law.{NothingIsStrange};
ghost use Rattle.mpt_rules.specs.World.Cases.{Case, entries, happens};
ghost use Rattle.mpt_rules.specs.World.FabricCounts.{result_count};
ghost use Rattle.mpt_rules.specs.World.Lines.{back_line};
ghost use Rattle.mpt_rules.specs.World.State.{World};
ghost use Rattle.law_facts.specs.Facts.{Facts};
ghost use Rattle.law_facts.specs.History.{History, first_history, history_after};
ghost use Rattle.law_paths.specs.Paths.{FurtherPaths};
ghost use Rattle.law_outcomes.specs.Stages.{RunsByStage};

/// At first nothing has run, and no command is open. Where all facts and the further ones hold of a world and nothing on its way is strange to its host: behind
/// any case the disk has answered an open command exactly where its path says that it has run.
pub fn runs_stay_by_stage()
    ensures first { (disks : List DiskSpec) → RunsByStage (first_history disks) }
    ensures kept { (w : World) (h : History) (c : Case) → Facts w h → NothingIsStrange w → FurtherPaths w h → RunsByStage h → RunsByStage (history_after h (entries w c)) }
{}

/// With the same premises: an open command whose result is on its way from the fabric has an outcome.
pub fn results_have_outcomes()
    ensures { (w : World) (h : History) (c : Case) → Facts w h → NothingIsStrange w → FurtherPaths w h → RunsByStage h → (n : ℕ) (d : Cmd) (r : OpenRequest) → finmap.get (happens w c).host.cmds n ≡ Some d → finmap.get (history_after h (entries w c)).machine.requests n ≡ Some r → 1 ≤ result_count d.smid (back_line (happens w c)) → is_some ((history_after h (entries w c)).machine.outcome n) ≡ true }
{}
