//! A submitter's end.
ghost use Rattle.std.specs.Prelude.{◌≡◌, ◌<◌, ◌≤◌, ◌^◌, [], true, IfOk, IsErr, OnErr, OnOk};
ghost use Rattle.mpt_live.specs.Recorded.{LeadsTo, submitter_enters};
ghost use Rattle.mpt_live.specs.Submitters.{SubmitterSteps, submitter_account};
ghost use Rattle.mpt_live.specs.Traffic.{KeepsLanes};

use crate::giving::Giving;
use crate::pumped::Pumped;
use crate::recorded_submitter::RecordedSubmitter;
use crate::sent::LAST_STAMP;
use crate::taking::Taking;
use mpt_journal::{Journal, OutOfMemory};
use mpt_trace::{Ask, Input, Party, Tell};
use std::alloc::Global;
use std::marker::Model;
use std::sync::Wait;

// So many submissions of a submitter are open at most.
const MOST_OPEN: u32 = 32;

/// A submitter with its lanes and its lines. A contract sees its number, its journal and its clock, what went through its
/// ends of the lanes, whether it has ended, and whether memory was wanting.
#[derive(Drop)]
pub struct SubmitterEnd<'a> {
    alloc: Global,
    recorded: RecordedSubmitter,
    ask: Giving<'a, Ask>,
    tell: Taking<'a, Tell>,
    lines: Vec<Input>,
    // The next line.
    next: usize,
    // `Bye` was asked.
    said_bye: bool,
    // How many submissions are open.
    open_count: u32,
    ended: bool,
    spent: bool,
}

impl<'a> Model for SubmitterEnd<'a> {
    ghost use Rattle.mpt_live.specs.Submitters.{NumberedEnd};

    ghost Value = { NumberedEnd };

    ghost view = { λ e. record { number = e.recorded.number; recorded = e.recorded.recorded; lanes = record { ask = e.ask; tell = e.tell }; has_ended = e.ended; is_spent = e.spent } };
}

impl<'a> SubmitterEnd<'a> {
    /// The end of the submitter of a number, which asks its lines in order.
    pub fn new(
        alloc: Global,
        number: u8,
        lines: Vec<Input>,
        ask: Giving<'a, Ask>,
        tell: Taking<'a, Tell>,
    ) -> SubmitterEnd<'a>
        ensures number { result.number ≡ number }
        ensures recorded { result.recorded ≡ record { part = tt; row = record { party = Party.Submitter number; moments = [] }; clock = 0 } }
        ensures lanes { result.lanes ≡ record { ask = ask.entry; tell = tell.entry } }
    {
        SubmitterEnd {
            alloc,
            recorded: RecordedSubmitter::new(alloc, number),
            ask,
            tell,
            lines,
            next: 0,
            said_bye: false,
            open_count: 0,
            ended: false,
            spent: false,
        }
    }

    /// Makes at most so many moves, each a case of the submitter, and waits for nothing. What goes through the lanes is what
    /// the journal records. After OutOfMemory each further call answers OutOfMemory.
    pub fn pump<R: Wait>(&mut self, rt: &R, quota: u32) -> Result<Pumped, OutOfMemory>
        ensures cases { OnOk result (LeadsTo (submitter_enters self.old.number) self.old.recorded self.new.recorded) }
        ensures lanes { OnOk result (KeepsLanes (submitter_account self.old) (submitter_account self.new)) }
        ensures number { self.new.number ≡ self.old.number }
        ensures ended { IfOk result (λ pumped. pumped.ended ≡ self.new.has_ended) }
        ensures few { IfOk result (λ pumped. pumped.moves ≤ quota) }
        ensures spent { self.old.is_spent ≡ true → IsErr result }
        ensures wanting { OnErr result (self.new.is_spent ≡ true) }
    {
        if self.spent {
            return Err(OutOfMemory);
        }
        match self.make_moves(rt, quota) {
            Ok(moves) => Ok(Pumped {
                moves,
                ended: self.ended,
            }),
            Err(error) => {
                self.spent = true;
                Err(error)
            }
        }
    }

    // Makes at most so many moves, and answers how many.
    fn make_moves<R: Wait>(&mut self, rt: &R, quota: u32) -> Result<u32, OutOfMemory>
        ensures cases { OnOk result (LeadsTo (submitter_enters self.old.number) self.old.recorded self.new.recorded) }
        ensures lanes { OnOk result (KeepsLanes (submitter_account self.old) (submitter_account self.new)) }
        ensures number { self.new.number ≡ self.old.number }
        ensures few { IfOk result (λ moves. moves ≤ quota) }
    {
        for moves in 0..quota {
            if !self.make_move(rt)? {
                return Ok(moves);
            }
        }
        Ok(quota)
    }

    // Makes one move: it takes before it asks. False where there is none to make.
    fn make_move<R: Wait>(&mut self, rt: &R) -> Result<bool, OutOfMemory>
        ensures made { IfOk result (λ made. SubmitterSteps self.old made self.new) }
        ensures number { self.new.number ≡ self.old.number }
    {
        if self.ended || self.recorded.clock() >= LAST_STAMP {
            return Ok(false);
        }
        if self.take_tell(rt)? {
            return Ok(true);
        }
        if self.put_ask(rt)? {
            return Ok(true);
        }
        self.ended = self.said_bye && self.open_count == 0;
        Ok(false)
    }

    // Takes what the host tells of a submission, which is then no longer open.
    fn take_tell<R: Wait>(&mut self, rt: &R) -> Result<bool, OutOfMemory>
        requires { self.old.recorded.clock < 2 ^ 61 }
        ensures took { IfOk result (λ took. SubmitterSteps self.old took self.new) }
        ensures number { self.new.number ≡ self.old.number }
    {
        let Some(sent) = self.tell.take(rt) else {
            return Ok(false);
        };
        self.open_count = self.open_count.saturating_sub(1);
        self.recorded.take_tell(sent)?;
        Ok(true)
    }

    // Asks the next line, or the last word. False where there is none to ask now, or the lane is full.
    fn put_ask<R: Wait>(&mut self, rt: &R) -> Result<bool, OutOfMemory>
        requires { self.old.recorded.clock < 2 ^ 61 }
        ensures put { IfOk result (λ put. SubmitterSteps self.old put self.new) }
        ensures number { self.new.number ≡ self.old.number }
    {
        let Some(ask) = self.next_ask()? else {
            return Ok(false);
        };
        if !self.recorded.put_ask(rt, &ask, &mut self.ask)? {
            return Ok(false);
        }
        match ask {
            Ask::Line(line) => {
                self.next = self.next.saturating_add(1);
                if is_submission(&line) {
                    self.open_count = self.open_count.saturating_add(1);
                }
            }
            Ask::Bye => self.said_bye = true,
        }
        Ok(true)
    }

    // What is asked next. None where all was asked, or as many submissions are open as may be.
    fn next_ask(&self) -> Result<Option<Ask>, OutOfMemory> {
        match self.lines.get(self.next) {
            Some(line) if is_submission(line) && self.open_count >= MOST_OPEN => Ok(None),
            Some(line) => Ok(Some(Ask::Line(line.copy(self.alloc)?))),
            None if self.said_bye => Ok(None),
            None => Ok(Some(Ask::Bye)),
        }
    }

    /// The number.
    pub fn number(&self) -> u8
        ensures { result ≡ self.now.number }
    {
        self.recorded.number()
    }

    /// Whether memory was wanting.
    pub fn is_spent(&self) -> bool
        ensures { result ≡ self.now.is_spent }
    {
        self.spent
    }

    /// The journal.
    pub fn finish(self) -> Journal
        ensures { result.row ≡ self.entry.recorded.row }
    {
        self.recorded.into_journal()
    }

    /// The journal and the ends of the lanes.
    pub fn into_parts(self) -> (Journal, Giving<'a, Ask>, Taking<'a, Tell>)
        ensures row { result.0.row ≡ self.entry.recorded.row }
        ensures ask { result.1 ≡ self.entry.lanes.ask }
        ensures tell { result.2 ≡ self.entry.lanes.tell }
    {
        (self.recorded.into_journal(), self.ask, self.tell)
    }
}

fn is_submission(line: &Input) -> bool {
    matches!(line, Input::Submit { .. })
}
