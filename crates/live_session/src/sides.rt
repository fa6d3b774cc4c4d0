//! What each party has of the lanes.
ghost use Rattle.std.specs.Prelude.{◌≡◌, ℕ, IfOk, vec_len};
ghost use Rattle.live_session.specs.Lanes.{AreEndsOf, AreFabricEnds};

use crate::lanes::{LaneEnds, Lanes, givings, takings};
use crate::lines::FabricLines;
use mpt_journal::OutOfMemory;
use mpt_lane::{Giver, Taker};
use mpt_live::{Giving, Sent, Taking};
use mpt_trace::{Ask, Back, Down, Out, Tell, Up};
use std::alloc::Global;

/// The ends of the host.
#[derive(Drop)]
pub(crate) struct HostSide<'a> {
    pub(crate) down: Giving<'a, Down>,
    pub(crate) ups: Vec<Taking<'a, Up>>,
    pub(crate) asks: Vec<Taking<'a, Ask>>,
    pub(crate) tells: Vec<Giving<'a, Tell>>,
}

/// The ends of the controller.
#[derive(Drop)]
pub(crate) struct IocSide<'a> {
    pub(crate) down: Taking<'a, Down>,
    pub(crate) ups: Vec<Giving<'a, Up>>,
    pub(crate) out: Giving<'a, Out>,
    pub(crate) back: Taking<'a, Back>,
}

/// The ends of the fabric, and its lines.
#[derive(Drop)]
pub(crate) struct FabricSide<'a> {
    pub(crate) lines: FabricLines,
    pub(crate) out: Taking<'a, Out>,
    pub(crate) back: Giving<'a, Back>,
}

/// What the fabric's ends are made of, apart from their lanes.
#[derive(Drop)]
pub(crate) struct FabricPart {
    pub(crate) lines: FabricLines,
    pub(crate) out: Taker<Sent<Out>>,
    pub(crate) back: Giver<Sent<Back>>,
}

impl FabricPart {
    /// The ends on their lanes.
    pub(crate) fn on_lanes<'a>(self, lanes: &'a Lanes) -> FabricSide<'a>
        requires { AreFabricEnds lanes.now self }
    {
        FabricSide {
            lines: self.lines,
            out: Taking::new(&lanes.out, self.out),
            back: Giving::new(&lanes.back, self.back),
        }
    }
}

/// The ends of the submitters, by their number.
#[derive(Drop)]
pub(crate) struct SubmitterSides<'a> {
    pub(crate) asks: Vec<Giving<'a, Ask>>,
    pub(crate) tells: Vec<Taking<'a, Tell>>,
}

/// The ends of the host, the controller and the fabric.
#[derive(Drop)]
pub(crate) struct CoreSides<'a> {
    pub(crate) host: HostSide<'a>,
    pub(crate) ioc: IocSide<'a>,
    pub(crate) fabric: FabricPart,
}

/// The ends of all parties.
#[derive(Drop)]
pub(crate) struct Sides<'a> {
    pub(crate) cores: CoreSides<'a>,
    pub(crate) submitters: SubmitterSides<'a>,
}

impl<'a> Sides<'a> {
    /// The ends of the lanes of a session with so many submitters, each at its party; or OutOfMemory.
    pub(crate) fn new(
        alloc: Global,
        lanes: &'a Lanes,
        ends: LaneEnds,
        submitters: usize,
        lines: FabricLines,
    ) -> Result<Sides<'a>, OutOfMemory>
        requires { (queues : ℕ) × AreEndsOf queues submitters lanes.now ends }
        ensures fabric { IfOk result (λ sides. AreFabricEnds lanes.now sides.cores.fabric) }
        ensures asks { IfOk result (λ sides. vec_len sides.submitters.asks ≡ submitters) }
        ensures tells { IfOk result (λ sides. vec_len sides.submitters.tells ≡ submitters) }
    {
        let LaneEnds {
            down,
            ups,
            out,
            back,
            asks,
            tells,
        } = ends;
        let host = HostSide {
            down: Giving::new(&lanes.down, down.giver),
            ups: takings(alloc, &lanes.ups, ups.takers)?,
            asks: takings(alloc, &lanes.asks, asks.takers)?,
            tells: givings(alloc, &lanes.tells, tells.givers)?,
        };
        let ioc = IocSide {
            down: Taking::new(&lanes.down, down.taker),
            ups: givings(alloc, &lanes.ups, ups.givers)?,
            out: Giving::new(&lanes.out, out.giver),
            back: Taking::new(&lanes.back, back.taker),
        };
        let fabric = FabricPart {
            lines,
            out: out.taker,
            back: back.giver,
        };
        let submitters = SubmitterSides {
            asks: givings(alloc, &lanes.asks, asks.givers)?,
            tells: takings(alloc, &lanes.tells, tells.takers)?,
        };
        Ok(Sides {
            cores: CoreSides { host, ioc, fabric },
            submitters,
        })
    }
}
