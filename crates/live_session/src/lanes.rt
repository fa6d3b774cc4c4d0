//! The lanes of a session.
ghost use Rattle.std.specs.Prelude.{◌≡◌, IfOk, length, vec_len};
ghost use Rattle.live_session.specs.Lanes.{AreEndsOf, AreGiversOf, AreOpened, AreTakersOf, IsOpened};

use mpt_journal::OutOfMemory;
use mpt_lane::{Giver, Lane, Taker, open};
use mpt_live::{Giving, Sent, Taking};
use mpt_trace::{Ask, Back, Down, Out, Tell, Up};
use std::alloc::Global;

/// For how many items each lane has room.
const LANE_ROOM: usize = 64;

/// The lanes of a session: those between the parties, a lane up for each reply queue, and a lane ask and a lane tell for
/// each submitter.
#[derive(Drop)]
pub(crate) struct Lanes {
    pub(crate) down: Lane<Sent<Down>>,
    pub(crate) ups: Vec<Lane<Sent<Up>>>,
    pub(crate) out: Lane<Sent<Out>>,
    pub(crate) back: Lane<Sent<Back>>,
    pub(crate) asks: Vec<Lane<Sent<Ask>>>,
    pub(crate) tells: Vec<Lane<Sent<Tell>>>,
}

/// The two ends of a lane.
#[derive(Drop)]
pub(crate) struct Ends<T> {
    pub(crate) giver: Giver<Sent<T>>,
    pub(crate) taker: Taker<Sent<T>>,
}

/// The ends of lanes of one kind, in the order of the lanes.
#[derive(Drop)]
pub(crate) struct ManyEnds<T> {
    pub(crate) givers: Vec<Giver<Sent<T>>>,
    pub(crate) takers: Vec<Taker<Sent<T>>>,
}

/// The ends of the lanes of a session.
#[derive(Drop)]
pub(crate) struct LaneEnds {
    pub(crate) down: Ends<Down>,
    pub(crate) ups: ManyEnds<Up>,
    pub(crate) out: Ends<Out>,
    pub(crate) back: Ends<Back>,
    pub(crate) asks: ManyEnds<Ask>,
    pub(crate) tells: ManyEnds<Tell>,
}

/// The lanes of a session with so many reply queues and so many submitters, and their ends, through which nothing has
/// gone; or OutOfMemory.
pub(crate) fn open_lanes(
    alloc: Global,
    queues: usize,
    submitters: usize,
) -> Result<(Lanes, LaneEnds), OutOfMemory>
    ensures { IfOk result (λ opened. AreEndsOf queues submitters opened.0 opened.1) }
{
    let (down, down_ends) = open_lane(alloc)?;
    let (out, out_ends) = open_lane(alloc)?;
    let (back, back_ends) = open_lane(alloc)?;
    let (ups, up_ends) = open_many(alloc, queues)?;
    let (asks, ask_ends) = open_many(alloc, submitters)?;
    let (tells, tell_ends) = open_many(alloc, submitters)?;
    let lanes = Lanes {
        down,
        ups,
        out,
        back,
        asks,
        tells,
    };
    let ends = LaneEnds {
        down: down_ends,
        ups: up_ends,
        out: out_ends,
        back: back_ends,
        asks: ask_ends,
        tells: tell_ends,
    };
    Ok((lanes, ends))
}

// A lane with its ends.
fn open_lane<T: Drop>(alloc: Global) -> Result<(Lane<Sent<T>>, Ends<T>), OutOfMemory>
    ensures { IfOk result (λ opened. IsOpened opened.0 opened.1) }
{
    let (lane, giver, taker) = open(alloc, LANE_ROOM)?;
    Ok((lane, Ends { giver, taker }))
}

// So many lanes with their ends.
fn open_many<T: Drop>(
    alloc: Global,
    count: usize,
) -> Result<(Vec<Lane<Sent<T>>>, ManyEnds<T>), OutOfMemory>
    ensures { IfOk result (λ opened. AreOpened count opened.0.items opened.1) }
{
    let mut lanes = Vec::new(alloc);
    let mut givers = Vec::new(alloc);
    let mut takers = Vec::new(alloc);
    for _lane in 0..count {
        let (lane, ends) = open_lane(alloc)?;
        lanes.push(lane)?;
        givers.push(ends.giver)?;
        takers.push(ends.taker)?;
    }
    Ok((lanes, ManyEnds { givers, takers }))
}

/// The ends that give of these lanes.
pub(crate) fn givings<'a, T>(
    alloc: Global,
    lanes: &'a [Lane<Sent<T>>],
    mut givers: Vec<Giver<Sent<T>>>,
) -> Result<Vec<Giving<'a, T>>, OutOfMemory>
    requires { AreGiversOf lanes.now givers.items }
    ensures { IfOk result (λ ends. vec_len ends ≡ length lanes.now) }
{
    let mut ends = Vec::new(alloc);
    for lane in lanes {
        ends.push(Giving::new(lane, givers.remove(0)))?;
    }
    Ok(ends)
}

/// The ends that take of these lanes.
pub(crate) fn takings<'a, T>(
    alloc: Global,
    lanes: &'a [Lane<Sent<T>>],
    mut takers: Vec<Taker<Sent<T>>>,
) -> Result<Vec<Taking<'a, T>>, OutOfMemory>
    requires { AreTakersOf lanes.now takers.items }
    ensures { IfOk result (λ ends. vec_len ends ≡ length lanes.now) }
{
    let mut ends = Vec::new(alloc);
    for lane in lanes {
        ends.push(Taking::new(lane, takers.remove(0)))?;
    }
    Ok(ends)
}
