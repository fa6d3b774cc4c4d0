//! The controller with its journal and its clock.
ghost use Rattle.std.specs.Prelude.{◌≡◌, ◌<◌, ◌^◌, ◌∷◌, [], IfOk, OnOk};
ghost use Rattle.mpt_rules.specs.Ioc.Takes.{front_out, front_up_on};
ghost use Rattle.mpt_rules.specs.Session.OpenCases.{PutsOut, PutsUp, TakesBack, TakesDown, WorksHigh, WorksNormal, ioc_does};
ghost use Rattle.mpt_live.specs.Lanes.{WasGiven};
ghost use Rattle.mpt_live.specs.Recorded.{Made, after_case, next_stamp, stamp_after, stamped_with};

use crate::giving::Giving;
use crate::lanes::up_lane;
use crate::sent::Sent;
use ioc_core::Ioc;
use mpt_journal::{Journal, OutOfMemory};
use mpt_trace::{Back, Down, Entry, Item, LaneName, Out, Party, Up};
use std::alloc::Global;
use std::marker::Model;
use std::sync::Wait;

/// A controller, each case of which is recorded in its journal under a stamp of its own. A contract sees it as the
/// record of the controller's rules, with its journal and its clock.
///
/// After OutOfMemory the case for which memory was wanting may be recorded in part, or not at all.
#[derive(Drop)]
pub(crate) struct RecordedIoc {
    alloc: Global,
    ioc: Ioc,
    journal: Journal,
    clock: u64,
}

impl Model for RecordedIoc {
    ghost use Rattle.std.specs.Prelude.{◌≡◌, []};
    ghost use Rattle.std.specs.Coded.{codes};
    ghost use Rattle.std.specs.FinSet as set;
    ghost use Rattle.mpt_rules.specs.Ioc.Parts.{Ioc};
    ghost use Rattle.mpt_live.specs.Recorded.{Recorded};

    ghost Value = { Recorded Ioc };

    ghost coded = { Prim.hlevel (codes, set.code) };

    ghost view = { λ r. record { part = r.ioc.part; row = r.journal.row; clock = r.clock } };

    ghost invariant = { λ r. r.ioc.told ≡ [] };
}

impl RecordedIoc {
    /// The controller, which has nothing left to tell, with an empty journal and its clock at 0.
    pub(crate) fn new(alloc: Global, ioc: Ioc) -> RecordedIoc
        requires { ioc.told ≡ [] }
        ensures { result ≡ record { part = ioc.part; row = record { party = Party.Ioc; moments = [] }; clock = 0 } }
    {
        RecordedIoc {
            alloc,
            ioc,
            journal: Journal::new(alloc, Party::Ioc),
            clock: 0,
        }
    }

    /// The clock.
    pub(crate) fn clock(&self) -> u64
        ensures { result ≡ self.now.clock }
    {
        self.clock
    }

    /// Whether there is an item for the fabric to put.
    pub(crate) fn has_out(&self) -> bool {
        self.ioc.front_out().is_some()
    }

    /// The controller and its journal.
    pub(crate) fn into_parts(self) -> (Ioc, Journal)
        ensures part { result.0.part ≡ self.part }
        ensures row { result.1.row ≡ self.row }
    {
        (self.ioc, self.journal)
    }

    /// Takes an item of the lane down.
    pub(crate) fn take_down(&mut self, sent: Sent<Down>) -> Result<(), OutOfMemory>
        requires { self.old.clock < 2 ^ 61 }
        ensures { OnOk result (self.new ≡ after_case ioc_does self.old (record { stamp = stamp_after self.old sent.stamp; value = TakesDown sent.item })) }
    {
        let stamp = self.clock.max(sent.stamp) + 1;
        let item = sent.item.copy(self.alloc)?;
        self.ioc.take_down(sent.item).map_err(|_| OutOfMemory)?;
        self.clock = stamp;
        let entry = Entry::Take {
            lane: LaneName::Down,
            item: Item::Down(item),
        };
        record_all(&mut self.ioc, &mut self.journal, stamp, entry)
    }

    /// Takes an item of the lane back.
    pub(crate) fn take_back(&mut self, sent: Sent<Back>) -> Result<(), OutOfMemory>
        requires { self.old.clock < 2 ^ 61 }
        ensures { OnOk result (self.new ≡ after_case ioc_does self.old (record { stamp = stamp_after self.old sent.stamp; value = TakesBack sent.item })) }
    {
        let stamp = self.clock.max(sent.stamp) + 1;
        let item = sent.item.copy(self.alloc)?;
        self.ioc.take_back(sent.item).map_err(|_| OutOfMemory)?;
        self.clock = stamp;
        let entry = Entry::Take {
            lane: LaneName::Back,
            item: Item::Back(item),
        };
        record_all(&mut self.ioc, &mut self.journal, stamp, entry)
    }

    /// Processes the front of the high queue. False where the queue is empty.
    pub(crate) fn work_high(&mut self) -> Result<bool, OutOfMemory>
        requires { self.old.clock < 2 ^ 61 }
        ensures { IfOk result (λ worked. Made ioc_does WorksHigh self.old worked self.new) }
    {
        if !self.ioc.step_high()? {
            return Ok(false);
        }
        self.clock += 1;
        record_told(&mut self.ioc, &mut self.journal, self.clock)?;
        Ok(true)
    }

    /// Processes the front of the normal queue. False where the queue is empty.
    pub(crate) fn work_normal(&mut self) -> Result<bool, OutOfMemory>
        requires { self.old.clock < 2 ^ 61 }
        ensures { IfOk result (λ worked. Made ioc_does WorksNormal self.old worked self.new) }
    {
        if !self.ioc.step_normal()? {
            return Ok(false);
        }
        self.clock += 1;
        record_told(&mut self.ioc, &mut self.journal, self.clock)?;
        Ok(true)
    }

    /// Puts the next item for the fabric. False where there is none or the lane is full.
    pub(crate) fn put_out<R: Wait>(
        &mut self,
        rt: &R,
        lane: &mut Giving<'_, Out>,
    ) -> Result<bool, OutOfMemory>
        requires { self.old.clock < 2 ^ 61 }
        ensures made { IfOk result (λ put. Made ioc_does PutsOut self.old put self.new) }
        ensures given { IfOk result (λ put. WasGiven (front_out self.old.part) lane.old (next_stamp self.old) put lane.new) }
    {
        let Some(next) = self.ioc.front_out() else {
            return Ok(false);
        };
        let item = next.copy(self.alloc)?;
        self.journal.reserve(1)?;
        let stamp = self.clock + 1;
        if lane.give(rt, stamp, item).is_err() {
            return Ok(false);
        }
        let out = self.ioc.sent_out();
        self.clock = stamp;
        let entry = Entry::Put {
            lane: LaneName::Out,
            item: Item::Out(out),
        };
        self.journal.push(stamp, entry)?;
        Ok(true)
    }

    /// Puts the next item of a reply queue. False where there is none, or it waits for a reply frame, or the lane is
    /// full.
    pub(crate) fn put_up<R: Wait>(
        &mut self,
        rt: &R,
        queue: u8,
        lane: &mut Giving<'_, Up>,
    ) -> Result<bool, OutOfMemory>
        requires { self.old.clock < 2 ^ 61 }
        ensures made { IfOk result (λ put. Made ioc_does (PutsUp queue) self.old put self.new) }
        ensures given { IfOk result (λ put. WasGiven (front_up_on self.old.part queue) lane.old (next_stamp self.old) put lane.new) }
    {
        let Some(next) = self.ioc.front_up_on(queue)? else {
            return Ok(false);
        };
        let item = next.copy(self.alloc)?;
        self.journal.reserve(1)?;
        let stamp = self.clock + 1;
        if lane.give(rt, stamp, item).is_err() {
            return Ok(false);
        }
        self.ioc.sent_up_on(queue);
        self.clock = stamp;
        let entry = Entry::Put {
            lane: up_lane(queue),
            item: Item::Up(next),
        };
        self.journal.push(stamp, entry)?;
        Ok(true)
    }
}

// Records an entry and then all that the controller tells, each with the stamp. Where memory is wanting, what isn't
// recorded yet is lost.
fn record_all(
    ioc: &mut Ioc,
    journal: &mut Journal,
    stamp: u64,
    entry: Entry,
) -> Result<(), OutOfMemory>
    ensures recorded { OnOk result (journal.new.row ≡ stamped_with journal.old.row stamp (entry ∷ ioc.old.told)) }
    ensures told { ioc.new.told ≡ [] }
    ensures part { ioc.new.part ≡ ioc.old.part }
{
    let first = journal.push(stamp, entry);
    let others = record_told(ioc, journal, stamp);
    first.and(others)
}

// Records all that the controller tells, each entry with the stamp. Where memory is wanting, the rest of it is lost.
fn record_told(ioc: &mut Ioc, journal: &mut Journal, stamp: u64) -> Result<(), OutOfMemory>
    ensures recorded { OnOk result (journal.new.row ≡ stamped_with journal.old.row stamp ioc.old.told) }
    ensures told { ioc.new.told ≡ [] }
    ensures part { ioc.new.part ≡ ioc.old.part }
{
    let mut recorded = Ok(());
    while let Some(entry) = ioc.told() {
        if recorded.is_ok() {
            recorded = journal.push(stamp, entry);
        }
    }
    recorded
}
