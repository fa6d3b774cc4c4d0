//! What the host has to tell its submitters.
use host_tables::NumberMap;
use mpt_journal::{OutOfMemory, Stamped};
use mpt_trace::{Ask, Entry, Input, Tell};
use std::alloc::Global;
use std::collections::VecDeque;

/// What is to be told to a submitter.
#[derive(Drop)]
struct Told {
    submitter: u8,
    tell: Tell,
}

/// What the host has to tell its submitters, the first first, and whose each number is. Each answer and each refusal of
/// a submission goes to the submitter that asked it.
#[derive(Drop)]
pub(crate) struct News {
    alloc: Global,
    owners: NumberMap<u8>,
    waiting: VecDeque<Told>,
    // So many entries of the journal were looked at.
    noted: usize,
}

impl News {
    /// Nothing to tell.
    pub(crate) fn new(alloc: Global) -> News {
        News {
            alloc,
            owners: NumberMap::new(alloc),
            waiting: VecDeque::new(alloc),
            noted: 0,
        }
    }

    /// Whether there is nothing to tell.
    pub(crate) fn is_empty(&self) -> bool {
        self.waiting.is_empty()
    }

    /// The submitter that is told first, and what. None where there is nothing to tell.
    pub(crate) fn first(&self) -> Option<(u8, &Tell)> {
        match self.waiting.front() {
            Some(told) => Some((told.submitter, &told.tell)),
            None => None,
        }
    }

    /// The first was told.
    pub(crate) fn pop_first(&mut self) {
        let _told = self.waiting.pop_front();
    }

    /// The line that a submitter asks, whose number is the submitter's from now on. None of what isn't the host's to do.
    pub(crate) fn line_of(
        &mut self,
        submitter: u8,
        ask: &Ask,
    ) -> Result<Option<Input>, OutOfMemory> {
        let Ask::Line(line) = ask else {
            return Ok(None);
        };
        match line {
            Input::Plug { .. } | Input::Unplug { .. } => return Ok(None),
            Input::Submit { n, .. } => {
                self.owners.make_room()?;
                self.owners.put(*n, submitter);
            }
            _ => {}
        }
        Ok(Some(line.copy(self.alloc)?))
    }

    /// Notes what the newest entries of the journal have for the submitters.
    pub(crate) fn note_all(&mut self, journal: &[Stamped]) -> Result<(), OutOfMemory> {
        if let Some(newest) = journal.get(self.noted..) {
            for stamped in newest {
                self.note(&stamped.entry)?;
            }
        }
        self.noted = journal.len();
        Ok(())
    }

    // Notes what an entry has for a submitter.
    fn note(&mut self, entry: &Entry) -> Result<(), OutOfMemory> {
        let (n, tell) = match entry {
            Entry::Answer { n, outcome } => {
                let outcome = outcome.copy(self.alloc)?;
                (*n, Tell::Answer { n: *n, outcome })
            }
            Entry::RefuseSubmit { n, cause } => (
                *n,
                Tell::RefuseSubmit {
                    n: *n,
                    cause: *cause,
                },
            ),
            _ => return Ok(()),
        };
        if let Some(submitter) = self.owners.get(n) {
            let submitter = *submitter;
            self.waiting.push_back(Told { submitter, tell })?;
        }
        Ok(())
    }
}
