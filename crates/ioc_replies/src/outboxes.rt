//! The outboxes of all reply queues.
ghost use Rattle.std.specs.Prelude.{◌≡◌, ◌≤◌, ◌<◌, ◌-◌, ◌^◌, ℕ, [], true, IfOk, OnErr, OnOk, drop, filter, length, map, option_copied, replicate, slice_get, slice_set, sum_by};
ghost use Rattle.std.specs.List.{list_all, list_any};
ghost use Rattle.mpt_rules.specs.Ioc.Places.{is_empty, is_reply_of};
ghost use Rattle.mpt_rules.specs.Ioc.Resets.{marked, outlives_reset};
ghost use Rattle.mpt_rules.specs.World.Weight.{said_items};
ghost use Rattle.ioc_replies.specs.Outboxes.{after_put, has_room, items_in, renewed, waiting_for};

use crate::outbox::Outbox;
use mpt_rules::{OutOfMemory, Said};
use mpt_trace::Smid;
use std::alloc::Global;
use std::marker::Model;

/// How many reply queues there are at most.
pub const MAX_QUEUES: u8 = 8;

/// The outboxes of the reply queues. A contract sees the items in each, and how many items more go into each of them
/// without taking memory.
#[derive(Drop)]
pub struct Outboxes {
    boxes: Vec<Outbox>,
    room: usize,
}

impl Model for Outboxes {
    ghost use Rattle.std.specs.Prelude.{map};
    ghost use Rattle.ioc_replies.specs.Outboxes.{HaveRoom, OutboxesSeen, items_in};

    ghost Value = { OutboxesSeen };

    ghost view = { λ o. record { boxes = map items_in o.boxes.items; room = o.room } };

    ghost invariant = { λ o. HaveRoom o.boxes.items o.room };
}

impl Outboxes {
    /// So many empty outboxes, or OutOfMemory.
    pub fn new(alloc: Global, queues: u8) -> Result<Outboxes, OutOfMemory>
        requires least { 1 ≤ queues }
        requires most { queues ≤ MAX_QUEUES }
        ensures { IfOk result (λ o. o ≡ record { boxes = replicate queues []; room = 0 }) }
    {
        let mut boxes = Vec::new(alloc);
        for _ in 0..queues {
            boxes.push(Outbox::new(alloc))?;
        }
        Ok(Outboxes { boxes, room: 0 })
    }

    /// How many there are.
    pub fn queues(&self) -> u8
        ensures count { result ≡ length self.now.boxes }
        ensures least { 1 ≤ result }
        ensures most { result ≤ MAX_QUEUES }
    {
        self.boxes.len() as u8
    }

    /// Makes room for so many items more in each.
    pub fn reserve(&mut self, count: usize) -> Result<(), OutOfMemory>
        ensures boxes { self.new.boxes ≡ self.old.boxes }
        ensures ok { OnOk result (self.new.room ≡ count) }
    {
        reserve_each(&mut self.boxes, count)?;
        self.room = count;
        Ok(())
    }

    /// Puts an item behind those that wait for a reply queue. There is room. Where there is no such queue the item is
    /// dropped.
    pub fn put(&mut self, queue: u8, said: Said)
        requires { 0 < self.old.room }
        ensures boxes { self.new.boxes ≡ after_put queue said self.old.boxes }
        ensures room { self.new.room ≡ self.old.room - 1 }
    {
        self.room -= 1;
        let place = usize::from(queue);
        if place < self.boxes.len() {
            self.boxes[place].put(said);
        }
    }

    /// What is put next for a reply queue, which stays. None exactly where nothing waits for it.
    pub fn front(&self, queue: u8) -> Option<&Said>
        ensures { option_copied result ≡ slice_get (waiting_for queue self.now.boxes) 0 }
    {
        self.boxes.get(usize::from(queue))?.front()
    }

    /// Takes what is put next for a reply queue. None exactly where nothing waits for it.
    pub fn pop(&mut self, queue: u8) -> Option<Said>
        ensures front { result ≡ slice_get (waiting_for queue self.old.boxes) 0 }
        ensures rest { self.new.boxes ≡ slice_set self.old.boxes queue (drop 1 (waiting_for queue self.old.boxes)) }
    {
        let place = usize::from(queue);
        if place < self.boxes.len() {
            self.boxes[place].pop()
        } else {
            None
        }
    }

    /// Drops what a reset drops, and puts the reset's mark into each outbox but the first. There is room.
    pub fn renew(&mut self, generation: u32)
        requires { 0 < self.old.room }
        ensures { self.new.boxes ≡ marked generation (map (filter outlives_reset) self.old.boxes) }
    {
        self.room = 0;
        renew_each(&mut self.boxes, generation);
    }

    /// How many items wait, values not counted.
    pub fn said_count(&self) -> u128
        ensures value { result ≡ sum_by said_items self.now.boxes }
        ensures most { result ≤ 2 ^ 67 }
    {
        count_said(&self.boxes)
    }

    /// Whether nothing waits.
    pub fn is_empty(&self) -> bool
        ensures { result ≡ list_all is_empty self.now.boxes }
    {
        all_empty(&self.boxes)
    }

    /// Whether a reply of the identifier waits.
    pub fn has_reply(&self, smid: Smid) -> bool
        ensures { result ≡ list_any (list_any (is_reply_of smid)) self.now.boxes }
    {
        any_reply(&self.boxes, smid)
    }
}

// Makes room for so many items more in each.
fn reserve_each(boxes: &mut [Outbox], count: usize) -> Result<(), OutOfMemory>
    ensures items { map items_in boxes.new ≡ map items_in boxes.old }
    ensures keeps { (room : ℕ) → list_all (has_room room) boxes.old ≡ true → list_all (has_room room) boxes.new ≡ true }
    ensures ok { OnOk result (list_all (has_room count) boxes.new ≡ true) }
{
    for i in 0..boxes.len() {
        boxes[i].reserve(count)?;
    }
    Ok(())
}

// Drops what a reset drops from each, and puts the mark into each but the first. There is room.
fn renew_each(boxes: &mut [Outbox], generation: u32)
    requires { list_all (has_room 1) boxes.old ≡ true }
    ensures items { map items_in boxes.new ≡ marked generation (map (filter outlives_reset) (map items_in boxes.old)) }
    ensures room { list_all (has_room 0) boxes.new ≡ true }
{
    for i in 0..boxes.len() {
        renew(&mut boxes[i], i > 0, generation);
    }
}

// Drops what a reset drops, and puts the mark there where it is asked for. There is room.
fn renew(outbox: &mut Outbox, marked: bool, generation: u32)
    requires { 0 < outbox.old.spare }
    ensures { outbox.new.items ≡ renewed marked generation outbox.old.items }
{
    outbox.renew();
    if marked {
        outbox.put(Said::Mark { generation });
    }
}

// How many items wait in them, values not counted.
fn count_said(boxes: &[Outbox]) -> u128
    requires { length boxes.now ≤ 8 }
    ensures value { result ≡ sum_by (λ o. said_items o.items) boxes.now }
    ensures most { result ≤ 2 ^ 67 }
{
    let mut count: u128 = 0;
    for outbox in boxes {
        count += outbox.said_count() as u128;
    }
    count
}

// Whether nothing waits in them.
fn all_empty(boxes: &[Outbox]) -> bool
    ensures { result ≡ list_all (λ o. is_empty o.items) boxes.now }
{
    boxes.iter().all(|outbox| outbox.is_empty())
}

// Whether a reply of the identifier waits in one of them.
fn any_reply(boxes: &[Outbox], smid: Smid) -> bool
    ensures { result ≡ list_any (λ o. list_any (is_reply_of smid) o.items) boxes.now }
{
    boxes.iter().any(|outbox| outbox.has_reply(smid))
}
