//! The end of a lane that gives.
ghost use Rattle.std.specs.Prelude.{◌≡◌, ◌≤◌, ◌^◌, [], IfErr, OnErr, OnOk};
ghost use Rattle.mpt_lane.specs.Lane.{IsGiverOf, sent_by};
ghost use Rattle.mpt_lane.specs.Log.{IsPrefix};
ghost use Rattle.mpt_live.specs.Lanes.{HasSent, GivesOn, lane_id};

use crate::sent::{LAST_STAMP, Sent};
use crate::taking::Taking;
use mpt_lane::{Giver, Lane};
use std::marker::Model;
use std::sync::Wait;

/// The end of a lane that gives. A contract sees which lane it is, and what was sent through it, the first first.
#[derive(Drop)]
pub struct Giving<'a, T> {
    lane: &'a Lane<Sent<T>>,
    giver: Giver<Sent<T>>,
    // How many items were sent.
    count: u64,
}

impl<'a, T> Model for Giving<'a, T> {
    ghost use Rattle.std.specs.Prelude.{List, ◌≡◌, length};
    ghost use Rattle.mpt_lane.specs.Lane.{IsGiverOf, sent_by};
    ghost use Rattle.mpt_live.specs.Lanes.{LaneEnd, lane_id};

    ghost Value = { LaneEnd T };

    ghost view = { λ g. record { lane = lane_id g.lane.now; items = sent_by g.giver } };

    ghost invariant = { λ g. IsGiverOf g.lane.now g.giver × (g.count ≡ length (sent_by g.giver)) };
}

impl<'a, T> Giving<'a, T> {
    /// The giving end of a lane that was opened with this giver, through which nothing was sent.
    pub fn new(lane: &'a Lane<Sent<T>>, giver: Giver<Sent<T>>) -> Giving<'a, T>
        requires opened { IsGiverOf lane.now giver }
        requires unused { sent_by giver ≡ [] }
        ensures { result ≡ record { lane = lane_id lane.now; items = [] } }
    {
        Giving {
            lane,
            giver,
            count: 0,
        }
    }

    /// Puts an item with a stamp on the lane. Where the lane is full, or as many items were sent as there are
    /// stamps, the item is handed back.
    pub(crate) fn give<R: Wait>(&mut self, rt: &R, stamp: u64, item: T) -> Result<(), T>
        requires { stamp ≤ 2 ^ 61 }
        ensures put { OnOk result (HasSent self.old stamp item self.new) }
        ensures stays { OnErr result (self.new ≡ self.old) }
        ensures returned { IfErr result (λ i. i ≡ item) }
    {
        if self.count >= LAST_STAMP {
            return Err(item);
        }
        match self.lane.give(rt, &mut self.giver, Sent { stamp, item }) {
            Ok(()) => {
                self.count += 1;
                Ok(())
            }
            Err(full) => Err(full.item.item),
        }
    }
    /// The giver, of which no part is lost.
    pub fn into_giver(self) -> Giver<Sent<T>>
        ensures giver { GivesOn self.entry.lane result }
        ensures sent { sent_by result ≡ self.entry.items }
    {
        self.giver
    }
    /// Ends the giving and the taking of the lane: what was received begins what was sent.
    pub fn settle(self, taking: Taking<'a, T>)
        requires { taking.lane ≡ self.lane }
        ensures { IsPrefix taking.entry.items self.entry.items }
    {
        self.lane.settle(self.giver, taking.into_taker())
    }
}
