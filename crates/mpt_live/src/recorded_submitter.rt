//! A submitter with its journal and its clock.
ghost use Rattle.std.specs.Prelude.{◌≡◌, ◌<◌, ◌^◌, [], IfOk, OnOk, Some};
ghost use Rattle.mpt_rules.specs.Session.OpenCases.{PutsAsk, TakesTell};
ghost use Rattle.mpt_live.specs.Lanes.{WasGiven};
ghost use Rattle.mpt_live.specs.Recorded.{Made, after_case, next_stamp, stamp_after, submitter_enters};
ghost use Rattle.mpt_live.specs.Submitters.{NumberedRecord};

use crate::giving::Giving;
use crate::sent::Sent;
use mpt_journal::{Journal, OutOfMemory};
use mpt_trace::{Ask, Entry, Item, LaneName, Party, Tell};
use std::alloc::Global;
use std::marker::Model;
use std::sync::Wait;

/// A submitter, each case of which is recorded in its journal under a stamp of its own. A contract sees its number,
/// and its journal with its clock: it has no other part.
#[derive(Drop)]
pub(crate) struct RecordedSubmitter {
    alloc: Global,
    number: u8,
    journal: Journal,
    clock: u64,
}

impl Model for RecordedSubmitter {
    ghost use Rattle.mpt_live.specs.Submitters.{NumberedRecord};

    ghost Value = { NumberedRecord };

    ghost view = { λ r. record { number = r.number; recorded = record { part = tt; row = r.journal.row; clock = r.clock } } };
}

impl RecordedSubmitter {
    /// The submitter of a number, with an empty journal and its clock at 0.
    pub(crate) fn new(alloc: Global, number: u8) -> RecordedSubmitter
        ensures number { result.number ≡ number }
        ensures recorded { result.recorded ≡ record { part = tt; row = record { party = Party.Submitter number; moments = [] }; clock = 0 } }
    {
        RecordedSubmitter {
            alloc,
            number,
            journal: Journal::new(alloc, Party::Submitter(number)),
            clock: 0,
        }
    }

    /// The clock.
    pub(crate) fn clock(&self) -> u64
        ensures { result ≡ self.now.recorded.clock }
    {
        self.clock
    }

    /// The number.
    pub(crate) fn number(&self) -> u8
        ensures { result ≡ self.now.number }
    {
        self.number
    }

    /// The journal.
    pub(crate) fn into_journal(self) -> Journal
        ensures { result.row ≡ self.recorded.row }
    {
        self.journal
    }

    /// Takes an item of the lane tell.
    pub(crate) fn take_tell(&mut self, sent: Sent<Tell>) -> Result<(), OutOfMemory>
        requires { self.old.recorded.clock < 2 ^ 61 }
        ensures number { self.new.number ≡ self.old.number }
        ensures taken { OnOk result (self.new.recorded ≡ after_case (submitter_enters self.old.number) self.old.recorded (record { stamp = stamp_after self.old.recorded sent.stamp; value = TakesTell sent.item })) }
    {
        let stamp = self.clock.max(sent.stamp) + 1;
        self.clock = stamp;
        let entry = Entry::Take {
            lane: LaneName::Tell(self.number),
            item: Item::Tell(sent.item),
        };
        self.journal.push(stamp, entry)
    }

    /// Puts an item on the lane ask. False where the lane is full.
    pub(crate) fn put_ask<R: Wait>(
        &mut self,
        rt: &R,
        ask: &Ask,
        lane: &mut Giving<'_, Ask>,
    ) -> Result<bool, OutOfMemory>
        requires { self.old.recorded.clock < 2 ^ 61 }
        ensures number { self.new.number ≡ self.old.number }
        ensures made { IfOk result (λ put. Made (submitter_enters self.old.number) (PutsAsk ask.now) self.old.recorded put self.new.recorded) }
        ensures given { IfOk result (λ put. WasGiven (Some ask.now) lane.old (next_stamp self.old.recorded) put lane.new) }
    {
        let given = ask.copy(self.alloc)?;
        let kept = ask.copy(self.alloc)?;
        self.journal.reserve(1)?;
        let stamp = self.clock + 1;
        if lane.give(rt, stamp, given).is_err() {
            return Ok(false);
        }
        self.clock = stamp;
        let entry = Entry::Put {
            lane: LaneName::Ask(self.number),
            item: Item::Ask(kept),
        };
        self.journal.push(stamp, entry)?;
        Ok(true)
    }
}
