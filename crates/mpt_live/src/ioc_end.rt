//! The controller's end.
ghost use Rattle.std.specs.Prelude.{◌≡◌, ◌<◌, ◌≤◌, ◌^◌, [], true, IfOk, IsErr, OnErr, OnOk};
ghost use Rattle.mpt_rules.specs.Session.OpenCases.{ioc_does};
ghost use Rattle.mpt_live.specs.Ends.{EndSteps, ioc_account};
ghost use Rattle.mpt_live.specs.Recorded.{LeadsTo};
ghost use Rattle.mpt_live.specs.Traffic.{KeepsLanes};

use crate::giving::Giving;
use crate::lane_ends::IocLaneEnds;
use crate::pumped::Pumped;
use crate::recorded_ioc::RecordedIoc;
use crate::sent::LAST_STAMP;
use crate::taking::Taking;
use ioc_core::Ioc;
use ioc_replies::MAX_QUEUES;
use mpt_journal::{Journal, OutOfMemory};
use mpt_trace::{Back, Down, Out, Party, Up};
use std::alloc::Global;
use std::marker::Model;
use std::sync::Wait;

// What the controller does in a move.
#[derive(Clone, Copy)]
enum IocWork {
    PutOut,
    PutUp,
    High,
    Normal,
    TakeBack,
    TakeDown,
}

// What is made first where it can be made: puts, then work, then takes.
const ORDER: [IocWork; 6] = [
    IocWork::PutOut,
    IocWork::PutUp,
    IocWork::High,
    IocWork::Normal,
    IocWork::TakeBack,
    IocWork::TakeDown,
];

/// The controller with its lanes. A contract sees its rules' record with its journal and its clock, what went through its
/// ends of the lanes, whether it has ended, and whether memory was wanting.
#[derive(Drop)]
pub struct IocEnd<'a> {
    recorded: RecordedIoc,
    down: Taking<'a, Down>,
    ups: Vec<Giving<'a, Up>>,
    out: Giving<'a, Out>,
    back: Taking<'a, Back>,
    // The host's last item was taken.
    stopping: bool,
    ended: bool,
    spent: bool,
}

impl<'a> Model for IocEnd<'a> {
    ghost use Rattle.std.specs.Coded.{codes};
    ghost use Rattle.std.specs.FinSet as set;
    ghost use Rattle.mpt_rules.specs.Ioc.Parts.{Ioc};
    ghost use Rattle.mpt_live.specs.Ends.{End};
    ghost use Rattle.mpt_live.specs.Traffic.{IocLanes};

    ghost Value = { End Ioc IocLanes };

    ghost coded = { Prim.hlevel (codes, set.code) };

    ghost view = { λ e. record { recorded = e.recorded; lanes = record { down = e.down; ups = e.ups.items; out = e.out; back = e.back }; has_ended = e.ended; is_spent = e.spent } };
}

impl<'a> IocEnd<'a> {
    /// The end of a controller that has nothing left to tell, with a lane up for each of its reply queues.
    pub fn new(
        alloc: Global,
        ioc: Ioc,
        down: Taking<'a, Down>,
        ups: Vec<Giving<'a, Up>>,
        out: Giving<'a, Out>,
        back: Taking<'a, Back>,
    ) -> IocEnd<'a>
        requires { ioc.told ≡ [] }
        ensures recorded { result.recorded ≡ record { part = ioc.part; row = record { party = Party.Ioc; moments = [] }; clock = 0 } }
        ensures lanes { result.lanes ≡ record { down = down.entry; ups = ups.entry.items; out = out.entry; back = back.entry } }
    {
        IocEnd {
            recorded: RecordedIoc::new(alloc, ioc),
            down,
            ups,
            out,
            back,
            stopping: false,
            ended: false,
            spent: false,
        }
    }

    /// Makes at most so many moves, each a case of the controller, and waits for nothing. What goes through the lanes is
    /// what the journal records. After OutOfMemory each further call answers OutOfMemory.
    pub fn pump<R: Wait>(&mut self, rt: &R, quota: u32) -> Result<Pumped, OutOfMemory>
        ensures cases { OnOk result (LeadsTo ioc_does self.old.recorded self.new.recorded) }
        ensures lanes { OnOk result (KeepsLanes (ioc_account self.old) (ioc_account self.new)) }
        ensures ended { IfOk result (λ pumped. pumped.ended ≡ self.new.has_ended) }
        ensures few { IfOk result (λ pumped. pumped.moves ≤ quota) }
        ensures spent { self.old.is_spent ≡ true → IsErr result }
        ensures wanting { OnErr result (self.new.is_spent ≡ true) }
    {
        if self.spent {
            return Err(OutOfMemory);
        }
        match self.make_moves(rt, quota) {
            Ok(moves) => Ok(Pumped {
                moves,
                ended: self.ended,
            }),
            Err(error) => {
                self.spent = true;
                Err(error)
            }
        }
    }

    // Makes at most so many moves, and answers how many.
    fn make_moves<R: Wait>(&mut self, rt: &R, quota: u32) -> Result<u32, OutOfMemory>
        ensures cases { OnOk result (LeadsTo ioc_does self.old.recorded self.new.recorded) }
        ensures lanes { OnOk result (KeepsLanes (ioc_account self.old) (ioc_account self.new)) }
        ensures few { IfOk result (λ moves. moves ≤ quota) }
    {
        for moves in 0..quota {
            if !self.make_move(rt)? {
                return Ok(moves);
            }
        }
        Ok(quota)
    }

    // Makes one move, the first in the order that can be made. False where none can.
    fn make_move<R: Wait>(&mut self, rt: &R) -> Result<bool, OutOfMemory>
        ensures { IfOk result (λ made. EndSteps ioc_does ioc_account self.old made self.new) }
    {
        if self.ended || self.recorded.clock() >= LAST_STAMP {
            return Ok(false);
        }
        for work in &ORDER {
            if self.work(rt, *work)? {
                return Ok(true);
            }
        }
        self.ended = self.stopping && !self.recorded.has_out();
        Ok(false)
    }

    // Makes a move of this kind. False where there is none to make.
    fn work<R: Wait>(&mut self, rt: &R, work: IocWork) -> Result<bool, OutOfMemory>
        requires { self.old.recorded.clock < 2 ^ 61 }
        ensures { IfOk result (λ made. EndSteps ioc_does ioc_account self.old made self.new) }
    {
        match work {
            IocWork::PutOut => self.put_out(rt),
            IocWork::PutUp => self.put_up(rt),
            IocWork::High => self.work_high(),
            IocWork::Normal => self.work_normal(),
            IocWork::TakeBack => self.take_back(rt),
            IocWork::TakeDown => self.take_down(rt),
        }
    }

    fn put_out<R: Wait>(&mut self, rt: &R) -> Result<bool, OutOfMemory>
        requires { self.old.recorded.clock < 2 ^ 61 }
        ensures { IfOk result (λ put. EndSteps ioc_does ioc_account self.old put self.new) }
    {
        self.recorded.put_out(rt, &mut self.out)
    }

    // Puts the next item of the first reply queue that has one and whose lane isn't full.
    fn put_up<R: Wait>(&mut self, rt: &R) -> Result<bool, OutOfMemory>
        requires { self.old.recorded.clock < 2 ^ 61 }
        ensures { IfOk result (λ put. EndSteps ioc_does ioc_account self.old put self.new) }
    {
        for queue in 0..MAX_QUEUES {
            if self.put_up_on(rt, queue)? {
                return Ok(true);
            }
        }
        Ok(false)
    }

    fn put_up_on<R: Wait>(&mut self, rt: &R, queue: u8) -> Result<bool, OutOfMemory>
        requires { self.old.recorded.clock < 2 ^ 61 }
        ensures { IfOk result (λ put. EndSteps ioc_does ioc_account self.old put self.new) }
    {
        match self.ups.get_mut(usize::from(queue)) {
            Some(lane) => self.recorded.put_up(rt, queue, lane),
            None => Ok(false),
        }
    }

    fn work_high(&mut self) -> Result<bool, OutOfMemory>
        requires { self.old.recorded.clock < 2 ^ 61 }
        ensures { IfOk result (λ worked. EndSteps ioc_does ioc_account self.old worked self.new) }
    {
        self.recorded.work_high()
    }

    fn work_normal(&mut self) -> Result<bool, OutOfMemory>
        requires { self.old.recorded.clock < 2 ^ 61 }
        ensures { IfOk result (λ worked. EndSteps ioc_does ioc_account self.old worked self.new) }
    {
        self.recorded.work_normal()
    }

    fn take_back<R: Wait>(&mut self, rt: &R) -> Result<bool, OutOfMemory>
        requires { self.old.recorded.clock < 2 ^ 61 }
        ensures { IfOk result (λ took. EndSteps ioc_does ioc_account self.old took self.new) }
    {
        let Some(sent) = self.back.take(rt) else {
            return Ok(false);
        };
        self.recorded.take_back(sent)?;
        Ok(true)
    }

    fn take_down<R: Wait>(&mut self, rt: &R) -> Result<bool, OutOfMemory>
        requires { self.old.recorded.clock < 2 ^ 61 }
        ensures { IfOk result (λ took. EndSteps ioc_does ioc_account self.old took self.new) }
    {
        let Some(sent) = self.down.take(rt) else {
            return Ok(false);
        };
        self.stopping |= is_stop(&sent.item);
        self.recorded.take_down(sent)?;
        Ok(true)
    }

    /// The controller and its journal.
    pub fn finish(self) -> (Ioc, Journal)
        ensures part { result.0.part ≡ self.entry.recorded.part }
        ensures row { result.1.row ≡ self.entry.recorded.row }
    {
        self.recorded.into_parts()
    }

    /// The controller, its journal, and its ends of the lanes.
    pub fn into_parts(self) -> (Ioc, Journal, IocLaneEnds<'a>)
        ensures part { result.0.part ≡ self.entry.recorded.part }
        ensures row { result.1.row ≡ self.entry.recorded.row }
        ensures down { result.2.down ≡ self.entry.lanes.down }
        ensures ups { result.2.ups.items ≡ self.entry.lanes.ups }
        ensures out { result.2.out ≡ self.entry.lanes.out }
        ensures back { result.2.back ≡ self.entry.lanes.back }
    {
        let (ioc, journal) = self.recorded.into_parts();
        let lanes = IocLaneEnds {
            down: self.down,
            ups: self.ups,
            out: self.out,
            back: self.back,
        };
        (ioc, journal, lanes)
    }
}

// Whether it is the last item of the session.
fn is_stop(item: &Down) -> bool {
    matches!(item, Down::Stop)
}
