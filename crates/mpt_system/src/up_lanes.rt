//! The lanes of all reply queues.
ghost use Rattle.std.specs.Prelude.{◌≡◌, ◌≤◌, ◌<◌, ◌^◌, ◌++◌, [], ◌∷◌, IfOk, OnErr, OnOk, drop, length, option_copied, replicate, slice_get, slice_index_or, slice_set, sum_by};
ghost use Rattle.std.specs.List.{list_all, list_any};
ghost use Rattle.mpt_rules.specs.Ioc.Places.{is_empty};
ghost use Rattle.mpt_rules.specs.World.Places.{is_answered_by, is_in_frame};
ghost use Rattle.mpt_rules.specs.World.State.{up_lane};
ghost use Rattle.mpt_rules.specs.World.Weight.{up_items};

use crate::up_lane::UpLane;
use mpt_rules::OutOfMemory;
use mpt_trace::{LaneName, Smid, Up};
use std::alloc::Global;
use std::marker::Model;

/// How many reply queues there are at most.
pub const MAX_QUEUES: u8 = 8;

/// The lanes from the controller to the host, one for each reply queue.
#[derive(Drop)]
pub struct UpLanes {
    lanes: Vec<UpLane>,
}

impl Model for UpLanes {
    ghost use Rattle.std.specs.Prelude.{◌≤◌, List, length};
    ghost use Rattle.mpt_trace.specs.declared.item.Up.{Up};

    ghost Value = { List (List Up) };

    ghost view = { λ l. l.lanes.items };

    ghost invariant = { λ l. length l.lanes.items ≤ 8 };
}

impl UpLanes {
    /// So many empty lanes; or OutOfMemory.
    pub fn new(alloc: Global, queues: u8) -> Result<UpLanes, OutOfMemory>
        requires { queues ≤ MAX_QUEUES }
        ensures { IfOk result (λ lanes. lanes ≡ replicate queues []) }
    {
        let mut lanes = Vec::new(alloc);
        for _ in 0..queues {
            lanes.push(UpLane::new(alloc))?;
        }
        Ok(UpLanes { lanes })
    }

    /// How many there are.
    pub fn count(&self) -> u8
        ensures { result ≡ length self.now }
    {
        self.lanes.len() as u8
    }

    /// Whether nothing is on any of them.
    pub fn is_empty(&self) -> bool
        ensures { result ≡ list_all is_empty self.now }
    {
        are_empty(&self.lanes)
    }

    /// How many items are on them, values not counted.
    pub fn item_count(&self) -> u128
        ensures value { result ≡ sum_by up_items self.now }
        ensures small { result ≤ 2 ^ 67 }
    {
        count_items(&self.lanes)
    }

    /// Whether a reply to this identifier is on one of them.
    pub fn has_answer(&self, smid: Smid) -> bool
        ensures { result ≡ list_any (list_any (is_answered_by smid)) self.now }
    {
        have_answer(&self.lanes, smid)
    }

    /// Whether a reply in this reply frame is on one of them.
    pub fn has_frame(&self, frame: u8) -> bool
        requires { frame < 64 }
        ensures { result ≡ list_any (list_any (is_in_frame frame)) self.now }
    {
        have_frame(&self.lanes, frame)
    }

    /// What is taken next from the lane of a reply queue, which stays. None exactly where there is
    /// nothing, or no such queue.
    pub fn front(&self, queue: u8) -> Option<&Up>
        ensures { option_copied result ≡ slice_get (slice_index_or self.now queue []) 0 }
    {
        self.lanes.get(usize::from(queue))?.front()
    }

    /// Puts an item on the lane of a reply queue; where there is no such queue the item is dropped. Or
    /// OutOfMemory, and nothing changes.
    pub fn push(&mut self, queue: u8, item: Up) -> Result<(), OutOfMemory>
        ensures ok { OnOk result (self.new ≡ slice_set self.old queue (slice_index_or self.old queue [] ++ item ∷ [])) }
        ensures stays { OnErr result (self.new ≡ self.old) }
    {
        let place = usize::from(queue);
        if place < self.lanes.len() {
            self.lanes[place].push(item)
        } else {
            Ok(())
        }
    }

    /// Takes the next item from the lane of a reply queue. None exactly where there is none, or no such
    /// queue.
    pub fn pop(&mut self, queue: u8) -> Option<Up>
        ensures front { result ≡ slice_get (slice_index_or self.old queue []) 0 }
        ensures rest { self.new ≡ slice_set self.old queue (drop 1 (slice_index_or self.old queue [])) }
    {
        let place = usize::from(queue);
        if place < self.lanes.len() {
            self.lanes[place].pop()
        } else {
            None
        }
    }
}

// Whether nothing is on any of these lanes.
fn are_empty(lanes: &[UpLane]) -> bool
    ensures { result ≡ list_all is_empty lanes.now }
{
    lanes.iter().all(|lane| lane.is_empty())
}

// How many items are on these lanes, values not counted.
fn count_items(lanes: &[UpLane]) -> u128
    requires { length lanes.now ≤ 8 }
    ensures value { result ≡ sum_by up_items lanes.now }
    ensures small { result ≤ 2 ^ 67 }
{
    let mut count: u128 = 0;
    for lane in lanes {
        count += lane.item_count() as u128;
    }
    count
}

// Whether a reply to this identifier is on one of these lanes.
fn have_answer(lanes: &[UpLane], smid: Smid) -> bool
    ensures { result ≡ list_any (list_any (is_answered_by smid)) lanes.now }
{
    lanes.iter().any(|lane| lane.has_answer(smid))
}

// Whether a reply in this reply frame is on one of these lanes.
fn have_frame(lanes: &[UpLane], frame: u8) -> bool
    requires { frame < 64 }
    ensures { result ≡ list_any (list_any (is_in_frame frame)) lanes.now }
{
    lanes.iter().any(|lane| lane.has_frame(frame))
}

/// The name of the lane of a reply queue.
pub fn up_lane(queue: u8) -> LaneName
    ensures { result ≡ up_lane queue }
{
    match queue {
        0 => LaneName::Up,
        _ => LaneName::UpOn(queue),
    }
}
