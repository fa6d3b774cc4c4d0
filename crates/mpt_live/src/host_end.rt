//! The host's end.
ghost use Rattle.std.specs.Prelude.{◌≡◌, ◌<◌, ◌≤◌, ◌^◌, [], true, IfOk, IsErr, OnErr, OnOk};
ghost use Rattle.mpt_rules.specs.Session.OpenCases.{host_does};
ghost use Rattle.mpt_live.specs.Ends.{EndSteps, host_account};
ghost use Rattle.mpt_live.specs.Recorded.{LeadsTo};
ghost use Rattle.mpt_live.specs.Traffic.{KeepsLanes};

use crate::giving::Giving;
use crate::lane_ends::HostLaneEnds;
use crate::news::News;
use crate::pumped::Pumped;
use crate::recorded_host::RecordedHost;
use crate::sent::LAST_STAMP;
use crate::taking::Taking;
use host_core::Host;
use mpt_journal::{Journal, OutOfMemory};
use mpt_trace::{Ask, Down, HostState, Input, Party, Tell, Up};
use std::alloc::Global;
use std::marker::Model;
use std::sync::Wait;

/// The most reply queues, and the most submitters.
const MOST_LANES: u8 = 8;

// What the host does in a move.
#[derive(Clone, Copy)]
enum HostWork {
    Start,
    Line,
    PutDown,
    PutTell,
    TakeUp,
    TakeAsk,
    Finish,
}

// What is made first where it can be made.
const ORDER: [HostWork; 7] = [
    HostWork::Start,
    HostWork::Line,
    HostWork::PutDown,
    HostWork::PutTell,
    HostWork::TakeUp,
    HostWork::TakeAsk,
    HostWork::Finish,
];

/// The host with its lanes. A contract sees its rules' record with its journal and its clock, what went through its ends of
/// the lanes, whether it has ended, and whether memory was wanting.
#[derive(Drop)]
pub struct HostEnd<'a> {
    recorded: RecordedHost,
    down: Giving<'a, Down>,
    ups: Vec<Taking<'a, Up>>,
    asks: Vec<Taking<'a, Ask>>,
    tells: Vec<Giving<'a, Tell>>,
    news: News,
    // The line that was taken last and isn't done yet.
    line: Option<Input>,
    started: bool,
    // How many submitters have said their last word.
    byes: usize,
    // The controller told that the fabric has nothing more to tell.
    calm: bool,
    // How many items were taken from the lanes up.
    taken: u64,
    // The same as the Doorbell was read last before the end.
    looked: Option<u64>,
    stopped: bool,
    ended: bool,
    spent: bool,
}

impl<'a> Model for HostEnd<'a> {
    ghost use Rattle.std.specs.Coded.{codes};
    ghost use Rattle.std.specs.FinMap as map;
    ghost use Rattle.mpt_rules.specs.Host.Parts.{Host};
    ghost use Rattle.mpt_live.specs.Ends.{End};
    ghost use Rattle.mpt_live.specs.Traffic.{HostLanes};

    ghost Value = { End Host HostLanes };

    ghost coded = { Prim.hlevel (codes, map.code) };

    ghost view = { λ e. record { recorded = e.recorded; lanes = record { down = e.down; ups = e.ups.items; asks = e.asks.items; tells = e.tells.items }; has_ended = e.ended; is_spent = e.spent } };
}

impl<'a> HostEnd<'a> {
    /// The end of a host that has nothing left to tell, with a lane up for each of its reply queues, and a lane ask and
    /// a lane tell for each submitter.
    pub fn new(
        alloc: Global,
        host: Host,
        down: Giving<'a, Down>,
        ups: Vec<Taking<'a, Up>>,
        asks: Vec<Taking<'a, Ask>>,
        tells: Vec<Giving<'a, Tell>>,
    ) -> HostEnd<'a>
        requires { host.told ≡ [] }
        ensures recorded { result.recorded ≡ record { part = host.host; row = record { party = Party.Host; moments = [] }; clock = 0 } }
        ensures lanes { result.lanes ≡ record { down = down.entry; ups = ups.entry.items; asks = asks.entry.items; tells = tells.entry.items } }
    {
        HostEnd {
            recorded: RecordedHost::new(alloc, host),
            down,
            ups,
            asks,
            tells,
            news: News::new(alloc),
            line: None,
            started: false,
            byes: 0,
            calm: false,
            taken: 0,
            looked: None,
            stopped: false,
            ended: false,
            spent: false,
        }
    }

    /// Makes at most so many moves, each a case of the host, and waits for nothing. What goes through the lanes is what the
    /// journal records. After OutOfMemory each further call answers OutOfMemory.
    pub fn pump<R: Wait>(&mut self, rt: &R, quota: u32) -> Result<Pumped, OutOfMemory>
        ensures cases { OnOk result (LeadsTo host_does self.old.recorded self.new.recorded) }
        ensures lanes { OnOk result (KeepsLanes (host_account self.old) (host_account self.new)) }
        ensures ended { IfOk result (λ pumped. pumped.ended ≡ self.new.has_ended) }
        ensures few { IfOk result (λ pumped. pumped.moves ≤ quota) }
        ensures spent { self.old.is_spent ≡ true → IsErr result }
        ensures wanting { OnErr result (self.new.is_spent ≡ true) }
    {
        if self.spent {
            return Err(OutOfMemory);
        }
        match self.make_moves(rt, quota) {
            Ok(moves) => Ok(Pumped {
                moves,
                ended: self.ended,
            }),
            Err(error) => {
                self.spent = true;
                Err(error)
            }
        }
    }

    // Makes at most so many moves, and answers how many.
    fn make_moves<R: Wait>(&mut self, rt: &R, quota: u32) -> Result<u32, OutOfMemory>
        ensures cases { OnOk result (LeadsTo host_does self.old.recorded self.new.recorded) }
        ensures lanes { OnOk result (KeepsLanes (host_account self.old) (host_account self.new)) }
        ensures few { IfOk result (λ moves. moves ≤ quota) }
    {
        for moves in 0..quota {
            if !self.make_move(rt)? {
                return Ok(moves);
            }
        }
        Ok(quota)
    }

    // Makes one move, the first in the order that can be made. False where none can.
    fn make_move<R: Wait>(&mut self, rt: &R) -> Result<bool, OutOfMemory>
        ensures { IfOk result (λ made. EndSteps host_does host_account self.old made self.new) }
    {
        if self.ended || self.recorded.clock() >= LAST_STAMP {
            return Ok(false);
        }
        for work in &ORDER {
            if self.work(rt, *work)? {
                return Ok(true);
            }
        }
        self.ended = self.stopped && !self.recorded.has_down();
        Ok(false)
    }

    // Makes a move of this kind. False where there is none to make.
    fn work<R: Wait>(&mut self, rt: &R, work: HostWork) -> Result<bool, OutOfMemory>
        requires { self.old.recorded.clock < 2 ^ 61 }
        ensures { IfOk result (λ made. EndSteps host_does host_account self.old made self.new) }
    {
        match work {
            HostWork::Start => self.start(),
            HostWork::Line => self.do_line(),
            HostWork::PutDown => self.put_down(rt),
            HostWork::PutTell => self.put_tell(rt),
            HostWork::TakeUp => self.take_up(rt),
            HostWork::TakeAsk => self.take_ask(rt),
            HostWork::Finish => self.look_or_stop(),
        }
    }

    fn start(&mut self) -> Result<bool, OutOfMemory>
        requires { self.old.recorded.clock < 2 ^ 61 }
        ensures { IfOk result (λ started. EndSteps host_does host_account self.old started self.new) }
    {
        if self.started {
            return Ok(false);
        }
        self.started = true;
        self.recorded.input(Input::Start)?;
        Ok(true)
    }

    // Does the line that was taken last.
    fn do_line(&mut self) -> Result<bool, OutOfMemory>
        requires { self.old.recorded.clock < 2 ^ 61 }
        ensures { IfOk result (λ did. EndSteps host_does host_account self.old did self.new) }
    {
        let Some(line) = self.line.take() else {
            return Ok(false);
        };
        self.recorded.input(line)?;
        Ok(true)
    }

    fn put_down<R: Wait>(&mut self, rt: &R) -> Result<bool, OutOfMemory>
        requires { self.old.recorded.clock < 2 ^ 61 }
        ensures { IfOk result (λ put. EndSteps host_does host_account self.old put self.new) }
    {
        self.recorded.put_down(rt, &mut self.down)
    }

    // Tells a submitter the next of what it is to be told.
    fn put_tell<R: Wait>(&mut self, rt: &R) -> Result<bool, OutOfMemory>
        requires { self.old.recorded.clock < 2 ^ 61 }
        ensures { IfOk result (λ put. EndSteps host_does host_account self.old put self.new) }
    {
        self.news.note_all(self.recorded.recorded())?;
        let Some((submitter, tell)) = self.news.first() else {
            return Ok(false);
        };
        let Some(lane) = self.tells.get_mut(usize::from(submitter)) else {
            return Ok(false);
        };
        let put = self.recorded.put_tell(rt, submitter, tell, lane)?;
        if put {
            self.news.pop_first();
        }
        Ok(put)
    }

    // Takes an item of the first reply queue that has one.
    fn take_up<R: Wait>(&mut self, rt: &R) -> Result<bool, OutOfMemory>
        requires { self.old.recorded.clock < 2 ^ 61 }
        ensures { IfOk result (λ took. EndSteps host_does host_account self.old took self.new) }
    {
        for queue in 0..MOST_LANES {
            if self.take_up_on(rt, queue)? {
                return Ok(true);
            }
        }
        Ok(false)
    }

    fn take_up_on<R: Wait>(&mut self, rt: &R, queue: u8) -> Result<bool, OutOfMemory>
        requires { self.old.recorded.clock < 2 ^ 61 }
        ensures { IfOk result (λ took. EndSteps host_does host_account self.old took self.new) }
    {
        if queue >= self.recorded.queues() {
            return Ok(false);
        }
        let Some(lane) = self.ups.get_mut(usize::from(queue)) else {
            return Ok(false);
        };
        let Some(sent) = lane.take(rt) else {
            return Ok(false);
        };
        self.taken = self.taken.saturating_add(1);
        self.calm |= is_calm(&sent.item);
        self.recorded.take_up(queue, sent)?;
        Ok(true)
    }

    // Takes what a submitter asks, while the host is up and reads no page of a disk.
    fn take_ask<R: Wait>(&mut self, rt: &R) -> Result<bool, OutOfMemory>
        requires { self.old.recorded.clock < 2 ^ 61 }
        ensures { IfOk result (λ took. EndSteps host_does host_account self.old took self.new) }
    {
        if !matches!(self.recorded.state(), HostState::Up) || self.recorded.reads_pages() {
            return Ok(false);
        }
        for submitter in 0..MOST_LANES {
            if self.take_ask_of(rt, submitter)? {
                return Ok(true);
            }
        }
        Ok(false)
    }

    fn take_ask_of<R: Wait>(&mut self, rt: &R, submitter: u8) -> Result<bool, OutOfMemory>
        requires { self.old.recorded.clock < 2 ^ 61 }
        ensures { IfOk result (λ took. EndSteps host_does host_account self.old took self.new) }
    {
        let Some(lane) = self.asks.get_mut(usize::from(submitter)) else {
            return Ok(false);
        };
        let Some(sent) = lane.take(rt) else {
            return Ok(false);
        };
        self.byes = self.byes.saturating_add(bye_count(&sent.item));
        self.line = self.news.line_of(submitter, &sent.item)?;
        self.recorded.take_ask(submitter, sent)?;
        Ok(true)
    }

    // At the end of the session: reads the Doorbell, and where nothing but its value came up since, puts the last item.
    fn look_or_stop(&mut self) -> Result<bool, OutOfMemory>
        requires { self.old.recorded.clock < 2 ^ 61 }
        ensures { IfOk result (λ did. EndSteps host_does host_account self.old did self.new) }
    {
        if self.stopped || !self.calm || self.byes < self.asks.len() || !self.news.is_empty() {
            return Ok(false);
        }
        if was_alone(self.looked, self.taken) {
            return self.stop();
        }
        self.look()
    }

    fn look(&mut self) -> Result<bool, OutOfMemory>
        requires { self.old.recorded.clock < 2 ^ 61 }
        ensures { IfOk result (λ looked. EndSteps host_does host_account self.old looked self.new) }
    {
        self.looked = Some(self.taken);
        self.recorded.look()
    }

    fn stop(&mut self) -> Result<bool, OutOfMemory>
        requires { self.old.recorded.clock < 2 ^ 61 }
        ensures { IfOk result (λ stopped. EndSteps host_does host_account self.old stopped self.new) }
    {
        self.stopped = !self.recorded.waits();
        self.recorded.stop()
    }

    /// The host and its journal.
    pub fn finish(self) -> (Host, Journal)
        ensures part { result.0.host ≡ self.entry.recorded.part }
        ensures row { result.1.row ≡ self.entry.recorded.row }
    {
        self.recorded.into_parts()
    }

    /// The host, its journal, and its ends of the lanes.
    pub fn into_parts(self) -> (Host, Journal, HostLaneEnds<'a>)
        ensures part { result.0.host ≡ self.entry.recorded.part }
        ensures row { result.1.row ≡ self.entry.recorded.row }
        ensures down { result.2.down ≡ self.entry.lanes.down }
        ensures ups { result.2.ups.items ≡ self.entry.lanes.ups }
        ensures asks { result.2.asks.items ≡ self.entry.lanes.asks }
        ensures tells { result.2.tells.items ≡ self.entry.lanes.tells }
    {
        let (host, journal) = self.recorded.into_parts();
        let lanes = HostLaneEnds {
            down: self.down,
            ups: self.ups,
            asks: self.asks,
            tells: self.tells,
        };
        (host, journal, lanes)
    }
}

// Whether the fabric has nothing more to tell.
fn is_calm(item: &Up) -> bool {
    matches!(item, Up::Calm)
}

// Whether it is a last word, as a number.
fn bye_count(ask: &Ask) -> usize {
    match ask {
        Ask::Bye => 1,
        Ask::Line(_) => 0,
    }
}

// Whether just one item was taken since the Doorbell was read: its value.
fn was_alone(looked: Option<u64>, taken: u64) -> bool {
    match looked {
        Some(before) => before < taken && taken - before == 1,
        None => false,
    }
}
