//! Laws of the definitions. The functions do nothing: what their contracts say is all that they are for.
ghost use Rattle.std.specs.Prelude.{ℕ, List};
ghost use Rattle.mpt_trace.specs.declared.disk_spec.DiskSpec.{DiskSpec};
ghost use Rattle.mpt_trace.specs.declared.entry.Entry.{Entry};
ghost use Rattle.mpt_wire.specs.Walks.Ahead.{PassesAhead};
ghost use Rattle.mpt_wire.specs.Queues.Frames.{FramesInCycles, FramesPass};
ghost use Rattle.mpt_wire.specs.OnWire.{HandlesOnWire, HandlesPass, MessagesOnWire, MessagesPass, QueuesOnWire, QueuesPass};
ghost use Rattle.mpt_wire.specs.Queues.Identifiers.{IdentifiersInCycles, IdentifiersPass};
ghost use Rattle.mpt_wire.specs.Queues.Lanes.{LanesInOrder, LanesPass};
ghost use Rattle.mpt_wire.specs.Queues.LeastFree.{LeastAreAccepted, LeastPass};
ghost use Rattle.mpt_wire.specs.Machine.Lives.{HaveOneLife};
ghost use Rattle.mpt_wire.specs.Machine.Steps.{IsRun, Step};
ghost use Rattle.mpt_wire.specs.Paths.Rules.{PathsKept, PathsPass};
ghost use Rattle.mpt_wire.specs.Ties.OnWire.{TiesOnWire, TiesPass};
ghost use Rattle.mpt_wire.specs.Machine.View.{SeenAsks, ViewIsRun, first_seen, seen_next};

/// Every run of the machine of disks gives each request one life at most: it is accepted, runs at most once, at the disk
/// that it was accepted for, and has at most one answer, the last of all. Done answers one that ran, Gone and Terminated
/// one that didn't.
pub fn requests_have_one_life()
    ensures { (disks : List DiskSpec) (steps : List Step) → IsRun disks steps → HaveOneLife steps }
{}

/// A trace that passes a rule entry by entry keeps the rule as it is stated of the whole trace.
pub fn passing_keeps_the_rules()
    ensures lanes { (t : List Entry) → LanesPass t → LanesInOrder t }
    ensures identifiers { (t : List Entry) → IdentifiersPass t → IdentifiersInCycles t }
    ensures least { (t : List Entry) → LeastPass t → LeastAreAccepted t }
    ensures frames { (t : List Entry) → FramesPass t → FramesInCycles t }
    ensures handles { (t : List Entry) → HandlesPass t → HandlesOnWire t }
    ensures queues { (q : ℕ) (t : List Entry) → QueuesPass q t → QueuesOnWire q t }
    ensures messages { (q : ℕ) (t : List Entry) → MessagesPass q t → MessagesOnWire q t }
    ensures paths { (t : List Entry) → PathsPass t → PathsKept t }
    ensures ties { (phys : List ℕ) (t : List Entry) → TiesPass phys t → TiesOnWire phys t }
    ensures disks { (disks : List DiskSpec) (t : List Entry) → PassesAhead seen_next SeenAsks (first_seen disks) t → ViewIsRun disks t }
{}
