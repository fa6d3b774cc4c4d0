//! The journal of one party.
ghost use Rattle.std.specs.Prelude.{◌≡◌, ◌≤◌, ◌<◌, ◌+◌, [], IsOk, OnOk, OnErr, length, map};
ghost use Rattle.mpt_journal.specs.Journal.{stamped_by, with_moment};

use crate::stamped::Stamped;
use mpt_trace::{Entry, OutOfMemory, Party};
use std::alloc::Global;
use std::marker::Model;

/// The journal of one party. A contract sees its row, which is the party and the moments of its
/// entries, oldest first, and its room: how many more entries have their memory already.
#[derive(Drop)]
pub struct Journal {
    party: Party,
    items: Vec<Stamped>,
}

impl Model for Journal {
    ghost use Rattle.std.specs.Prelude.{◌-◌, vec_len, vec_capacity};
    ghost use Rattle.mpt_journal.specs.Journal.{HeldRow, AreStampedBy, row_of};

    ghost Value = { HeldRow };

    ghost view = { λ j. record { row = row_of j.party j.items.items; room = vec_capacity j.items - vec_len j.items } };

    ghost invariant = { λ j. AreStampedBy j.party j.items.items };
}

impl Journal {
    /// The party's journal, without entries.
    pub fn new(alloc: Global, party: Party) -> Journal
        ensures { result.row ≡ record { party = party; moments = [] } }
    {
        Journal {
            party,
            items: Vec::new(alloc),
        }
    }

    /// Takes the memory of `n` more entries: the next `n` pushes answer Ok. Where memory is wanting
    /// nothing changes.
    pub fn reserve(&mut self, n: usize) -> Result<(), OutOfMemory>
        ensures ok { OnOk result (n ≤ self.new.room) }
        ensures same { self.new.row ≡ self.old.row }
        ensures room { self.old.room ≤ self.new.room }
    {
        self.items.reserve(n)
    }

    /// Adds an entry at the end, in constant time but where the memory has to grow. It answers Ok
    /// where there is room. Where memory is wanting the journal keeps its entries, and the new one is
    /// dropped.
    pub fn push(&mut self, stamp: u64, entry: Entry) -> Result<(), OutOfMemory>
        ensures ok { OnOk result (self.new.row ≡ with_moment self.old.row (record { stamp = stamp; value = entry })) }
        ensures err { OnErr result (self.new.row ≡ self.old.row) }
        ensures reserved { 0 < self.old.room → IsOk result }
        ensures room { self.old.room ≤ self.new.room + 1 }
    {
        let party = self.party;
        self.items.push(Stamped {
            stamp,
            party,
            entry,
        })?;
        Ok(())
    }

    /// The party.
    pub fn party(&self) -> Party
        ensures { result ≡ self.now.row.party }
    {
        self.party
    }

    /// How many entries there are.
    pub fn len(&self) -> usize
        ensures { result ≡ length self.now.row.moments }
    {
        self.items.len()
    }

    /// The entries as a slice, oldest first.
    pub fn as_slice(&self) -> &[Stamped]
        ensures { result.now ≡ map (stamped_by self.now.row.party) self.now.row.moments }
    {
        &self.items
    }
}
