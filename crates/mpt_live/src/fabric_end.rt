//! The fabric's end.
ghost use Rattle.std.specs.Prelude.{◌≡◌, ◌<◌, ◌≤◌, ◌^◌, [], true, IfOk, IsErr, OnErr, OnOk};
ghost use Rattle.mpt_rules.specs.Session.OpenCases.{fabric_does};
ghost use Rattle.mpt_live.specs.Ends.{EndSteps, fabric_account};
ghost use Rattle.mpt_live.specs.Recorded.{LeadsTo};
ghost use Rattle.mpt_live.specs.Traffic.{KeepsLanes};

use crate::giving::Giving;
use crate::pumped::Pumped;
use crate::recorded_fabric::RecordedFabric;
use crate::sent::LAST_STAMP;
use crate::taking::Taking;
use mpt_journal::{Journal, OutOfMemory};
use mpt_trace::{Back, Input, Out, Party};
use sas_fabric::Fabric;
use std::alloc::Global;
use std::marker::Model;
use std::sync::Wait;

// What the fabric does in a move.
#[derive(Clone, Copy)]
enum FabricWork {
    PutBack,
    FirstLine,
    TakeOut,
    Announce,
    Line,
    Run,
    Calm,
}

// What is made first where it can be made.
const ORDER: [FabricWork; 7] = [
    FabricWork::PutBack,
    FabricWork::FirstLine,
    FabricWork::TakeOut,
    FabricWork::Announce,
    FabricWork::Line,
    FabricWork::Run,
    FabricWork::Calm,
];

/// The fabric with its lanes and its lines. A contract sees its rules' record with its journal and its clock, what went
/// through its ends of the lanes, whether it has ended, and whether memory was wanting.
#[derive(Drop)]
pub struct FabricEnd<'a> {
    alloc: Global,
    recorded: RecordedFabric,
    out: Taking<'a, Out>,
    back: Giving<'a, Back>,
    lines: Vec<Input>,
    // So many lines are done before the first item is taken.
    first: usize,
    // The next line.
    next: usize,
    // A line may be done in this pump.
    line_due: bool,
    // `Calm` was told.
    calmed: bool,
    // The last item of the session was taken.
    stopping: bool,
    ended: bool,
    spent: bool,
}

impl<'a> Model for FabricEnd<'a> {
    ghost use Rattle.mpt_rules.specs.Fabric.Parts.{Fabric};
    ghost use Rattle.mpt_live.specs.Ends.{End};
    ghost use Rattle.mpt_live.specs.Traffic.{FabricLanes};

    ghost Value = { End Fabric FabricLanes };

    ghost view = { λ e. record { recorded = e.recorded; lanes = record { out = e.out; back = e.back }; has_ended = e.ended; is_spent = e.spent } };
}

impl<'a> FabricEnd<'a> {
    /// The end of a fabric, which does its first `first` lines before it takes its first item, and each other line in a
    /// pump of its own. A line that is no plug or unplug does nothing.
    pub fn new(
        alloc: Global,
        fabric: Fabric,
        lines: Vec<Input>,
        first: usize,
        out: Taking<'a, Out>,
        back: Giving<'a, Back>,
    ) -> FabricEnd<'a>
        ensures recorded { result.recorded ≡ record { part = fabric; row = record { party = Party.Fabric; moments = [] }; clock = 0 } }
        ensures lanes { result.lanes ≡ record { out = out.entry; back = back.entry } }
    {
        FabricEnd {
            alloc,
            recorded: RecordedFabric::new(alloc, fabric),
            out,
            back,
            lines,
            first,
            next: 0,
            line_due: false,
            calmed: false,
            stopping: false,
            ended: false,
            spent: false,
        }
    }

    /// Makes at most so many moves, each a case of the fabric, and waits for nothing. What goes through the lanes is what
    /// the journal records. After OutOfMemory each further call answers OutOfMemory.
    pub fn pump<R: Wait>(&mut self, rt: &R, quota: u32) -> Result<Pumped, OutOfMemory>
        ensures cases { OnOk result (LeadsTo fabric_does self.old.recorded self.new.recorded) }
        ensures lanes { OnOk result (KeepsLanes (fabric_account self.old) (fabric_account self.new)) }
        ensures ended { IfOk result (λ pumped. pumped.ended ≡ self.new.has_ended) }
        ensures few { IfOk result (λ pumped. pumped.moves ≤ quota) }
        ensures spent { self.old.is_spent ≡ true → IsErr result }
        ensures wanting { OnErr result (self.new.is_spent ≡ true) }
    {
        if self.spent {
            return Err(OutOfMemory);
        }
        match self.make_moves(rt, quota) {
            Ok(moves) => Ok(Pumped {
                moves,
                ended: self.ended,
            }),
            Err(error) => {
                self.spent = true;
                Err(error)
            }
        }
    }

    // Makes at most so many moves, and answers how many.
    fn make_moves<R: Wait>(&mut self, rt: &R, quota: u32) -> Result<u32, OutOfMemory>
        ensures cases { OnOk result (LeadsTo fabric_does self.old.recorded self.new.recorded) }
        ensures lanes { OnOk result (KeepsLanes (fabric_account self.old) (fabric_account self.new)) }
        ensures few { IfOk result (λ moves. moves ≤ quota) }
    {
        self.line_due = true;
        for moves in 0..quota {
            if !self.make_move(rt)? {
                return Ok(moves);
            }
        }
        Ok(quota)
    }

    // Makes one move, the first in the order that can be made. False where none can.
    fn make_move<R: Wait>(&mut self, rt: &R) -> Result<bool, OutOfMemory>
        ensures { IfOk result (λ made. EndSteps fabric_does fabric_account self.old made self.new) }
    {
        if self.ended || self.recorded.clock() >= LAST_STAMP {
            return Ok(false);
        }
        for work in &ORDER {
            if self.work(rt, *work)? {
                return Ok(true);
            }
        }
        self.ended = self.stopping && !self.recorded.has_back();
        Ok(false)
    }

    // Makes a move of this kind. False where there is none to make.
    fn work<R: Wait>(&mut self, rt: &R, work: FabricWork) -> Result<bool, OutOfMemory>
        requires { self.old.recorded.clock < 2 ^ 61 }
        ensures { IfOk result (λ made. EndSteps fabric_does fabric_account self.old made self.new) }
    {
        match work {
            FabricWork::PutBack => self.put_back(rt),
            FabricWork::FirstLine => self.do_first_line(),
            FabricWork::TakeOut => self.take_out(rt),
            FabricWork::Announce => self.announce(),
            FabricWork::Line => self.do_due_line(),
            FabricWork::Run => self.run_oldest(),
            FabricWork::Calm => self.calm(),
        }
    }

    fn put_back<R: Wait>(&mut self, rt: &R) -> Result<bool, OutOfMemory>
        requires { self.old.recorded.clock < 2 ^ 61 }
        ensures { IfOk result (λ put. EndSteps fabric_does fabric_account self.old put self.new) }
    {
        self.recorded.put_back(rt, &mut self.back)
    }

    // Does the next line, if it is one that comes before the first item.
    fn do_first_line(&mut self) -> Result<bool, OutOfMemory>
        requires { self.old.recorded.clock < 2 ^ 61 }
        ensures { IfOk result (λ did. EndSteps fabric_does fabric_account self.old did self.new) }
    {
        if self.next >= self.first {
            return Ok(false);
        }
        self.do_line()
    }

    // Does the next line, the first of this pump.
    fn do_due_line(&mut self) -> Result<bool, OutOfMemory>
        requires { self.old.recorded.clock < 2 ^ 61 }
        ensures { IfOk result (λ did. EndSteps fabric_does fabric_account self.old did self.new) }
    {
        if !self.line_due {
            return Ok(false);
        }
        self.line_due = false;
        self.do_line()
    }

    // Does the next line. False where there is none.
    fn do_line(&mut self) -> Result<bool, OutOfMemory>
        requires { self.old.recorded.clock < 2 ^ 61 }
        ensures { IfOk result (λ did. EndSteps fabric_does fabric_account self.old did self.new) }
    {
        let Some(line) = self.lines.get(self.next) else {
            return Ok(false);
        };
        let line = line.copy(self.alloc)?;
        self.next += 1;
        self.recorded.input(line)?;
        Ok(true)
    }

    fn take_out<R: Wait>(&mut self, rt: &R) -> Result<bool, OutOfMemory>
        requires { self.old.recorded.clock < 2 ^ 61 }
        ensures { IfOk result (λ took. EndSteps fabric_does fabric_account self.old took self.new) }
    {
        let Some(sent) = self.out.take(rt) else {
            return Ok(false);
        };
        self.stopping |= is_stop(&sent.item);
        self.recorded.take_out(sent)?;
        Ok(true)
    }

    fn announce(&mut self) -> Result<bool, OutOfMemory>
        requires { self.old.recorded.clock < 2 ^ 61 }
        ensures { IfOk result (λ told. EndSteps fabric_does fabric_account self.old told self.new) }
    {
        self.recorded.announce()
    }

    fn run_oldest(&mut self) -> Result<bool, OutOfMemory>
        requires { self.old.recorded.clock < 2 ^ 61 }
        ensures { IfOk result (λ ran. EndSteps fabric_does fabric_account self.old ran self.new) }
    {
        self.recorded.run_oldest()
    }

    // Tells once, after the last line, that there is nothing more to tell.
    fn calm(&mut self) -> Result<bool, OutOfMemory>
        requires { self.old.recorded.clock < 2 ^ 61 }
        ensures { IfOk result (λ calmed. EndSteps fabric_does fabric_account self.old calmed self.new) }
    {
        if self.calmed || self.next < self.lines.len() {
            return Ok(false);
        }
        self.calmed = true;
        self.recorded.calm()?;
        Ok(true)
    }

    /// The fabric and its journal.
    pub fn finish(self) -> (Fabric, Journal)
        ensures part { result.0 ≡ self.entry.recorded.part }
        ensures row { result.1.row ≡ self.entry.recorded.row }
    {
        self.recorded.into_parts()
    }

    /// The fabric, its journal, and its ends of the lanes.
    pub fn into_parts(self) -> (Fabric, Journal, Taking<'a, Out>, Giving<'a, Back>)
        ensures part { result.0 ≡ self.entry.recorded.part }
        ensures row { result.1.row ≡ self.entry.recorded.row }
        ensures out { result.2 ≡ self.entry.lanes.out }
        ensures back { result.3 ≡ self.entry.lanes.back }
    {
        let (fabric, journal) = self.recorded.into_parts();
        (fabric, journal, self.out, self.back)
    }
}

// Whether it is the last item of the session.
fn is_stop(item: &Out) -> bool {
    matches!(item, Out::Stop)
}
