//! The end of a lane that takes.
ghost use Rattle.std.specs.Prelude.{◌≡◌, [], IfSome, IsNone};
ghost use Rattle.mpt_lane.specs.Lane.{IsTakerOf, received_by};
ghost use Rattle.mpt_live.specs.Lanes.{TakesOn, lane_id, with_item};

use crate::sent::Sent;
use mpt_lane::{Lane, Taker};
use std::marker::Model;
use std::sync::Wait;

/// The end of a lane that takes. A contract sees which lane it is, and what was received through it, the first first.
#[derive(Drop)]
pub struct Taking<'a, T> {
    lane: &'a Lane<Sent<T>>,
    taker: Taker<Sent<T>>,
}

impl<'a, T> Model for Taking<'a, T> {
    ghost use Rattle.mpt_lane.specs.Lane.{IsTakerOf, received_by};
    ghost use Rattle.mpt_live.specs.Lanes.{LaneEnd, lane_id};

    ghost Value = { LaneEnd T };

    ghost view = { λ t. record { lane = lane_id t.lane.now; items = received_by t.taker } };

    ghost invariant = { λ t. IsTakerOf t.lane.now t.taker };
}

impl<'a, T> Taking<'a, T> {
    /// The taking end of a lane that was opened with this taker, through which nothing was received.
    pub fn new(lane: &'a Lane<Sent<T>>, taker: Taker<Sent<T>>) -> Taking<'a, T>
        requires opened { IsTakerOf lane.now taker }
        requires unused { received_by taker ≡ [] }
        ensures { result ≡ record { lane = lane_id lane.now; items = [] } }
    {
        Taking { lane, taker }
    }

    /// Takes the first item of the lane. None only where the lane was empty at one moment of the call.
    pub(crate) fn take<R: Wait>(&mut self, rt: &R) -> Option<Sent<T>>
        ensures got { IfSome result (λ sent. self.new ≡ with_item self.old sent) }
        ensures stays { IsNone result → self.new ≡ self.old }
    {
        self.lane.take(rt, &mut self.taker).ok()
    }
    /// The taker, of which no part is lost.
    pub fn into_taker(self) -> Taker<Sent<T>>
        ensures taker { TakesOn self.entry.lane result }
        ensures received { received_by result ≡ self.entry.items }
    {
        self.taker
    }
}
