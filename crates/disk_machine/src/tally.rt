//! How many answers of each kind a trace has.
ghost use Rattle.std.specs.Prelude.{List, [], ◌∷◌, ◌++◌};
ghost use Rattle.mpt_trace.specs.declared.entry.Entry.{Entry};
ghost use Rattle.disk_machine.specs.Summary.{AreCounts, MayRise};

use mpt_trace::{Entry, Outcome};

/// The answers of each kind, and the refused submissions.
#[derive(Clone, Copy)]
pub(crate) struct AnswerCounts {
    pub(crate) done: u64,
    pub(crate) gone: u64,
    pub(crate) terminated: u64,
    pub(crate) reset: u64,
    pub(crate) refused: u64,
}

impl AnswerCounts {
    // Those of a trace.
    pub(crate) fn of(entries: &[Entry]) -> AnswerCounts
        ensures { AreCounts result entries.now }
    {
        let mut counts = AnswerCounts {
            done: 0,
            gone: 0,
            terminated: 0,
            reset: 0,
            refused: 0,
        };
        for entry in entries {
            counts.add(entry);
        }
        counts
    }

    // One entry more.
    fn add(&mut self, entry: &Entry)
        requires { MayRise self.old }
        ensures { (t : List Entry) → AreCounts self.old t → AreCounts self.new (t ++ entry.now ∷ []) }
    {
        match entry {
            Entry::RefuseSubmit { .. } => self.refused += 1,
            Entry::Answer { outcome, .. } => match outcome {
                Outcome::Done(_) => self.done += 1,
                Outcome::Gone => self.gone += 1,
                Outcome::Terminated => self.terminated += 1,
                Outcome::Reset => self.reset += 1,
            },
            _ => {}
        }
    }
}
