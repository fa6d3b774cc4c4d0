//! The lane of one reply queue.
ghost use Rattle.std.specs.Prelude.{◌≡◌, ◌<◌, ◌++◌, [], ◌∷◌, OnErr, OnOk, drop, option_copied, slice_get};
ghost use Rattle.std.specs.List.{list_any};
ghost use Rattle.mpt_rules.specs.Ioc.Places.{is_empty};
ghost use Rattle.mpt_rules.specs.World.Places.{is_answered_by, is_in_frame};
ghost use Rattle.mpt_rules.specs.World.Weight.{is_value, up_items};

use host_tables::frame_address;
use mpt_rules::OutOfMemory;
use mpt_trace::{Smid, Up};
use std::alloc::Global;
use std::collections::VecDeque;
use std::marker::Model;

/// What was put on the lane of a reply queue and not taken, the next first.
#[derive(Drop)]
pub struct UpLane {
    items: VecDeque<Up>,
}

impl Model for UpLane {
    ghost use Rattle.std.specs.Prelude.{List};
    ghost use Rattle.mpt_trace.specs.declared.item.Up.{Up};

    ghost Value = { List Up };

    ghost view = { λ l. l.items.items };
}

impl UpLane {
    /// Nothing.
    pub fn new(alloc: Global) -> UpLane
        ensures { result ≡ [] }
    {
        UpLane {
            items: VecDeque::new(alloc),
        }
    }

    /// What is taken next, which stays. None exactly where there is nothing.
    pub fn front(&self) -> Option<&Up>
        ensures { option_copied result ≡ slice_get self.now 0 }
    {
        self.items.front()
    }

    /// Whether there is nothing.
    pub fn is_empty(&self) -> bool
        ensures { result ≡ is_empty self.now }
    {
        self.items.is_empty()
    }

    /// Puts an item behind the others; or OutOfMemory, and nothing changes.
    pub fn push(&mut self, item: Up) -> Result<(), OutOfMemory>
        ensures ok { OnOk result (self.new ≡ self.old ++ item ∷ []) }
        ensures stays { OnErr result (self.new ≡ self.old) }
    {
        self.items.push_back(item)?;
        Ok(())
    }

    /// Takes the next item. None exactly where there is none.
    pub fn pop(&mut self) -> Option<Up>
        ensures front { result ≡ slice_get self.old 0 }
        ensures rest { self.new ≡ drop 1 self.old }
    {
        self.items.pop_front()
    }

    /// How many items there are, values not counted.
    pub fn item_count(&self) -> usize
        ensures { result ≡ up_items self.now }
    {
        self.items.iter().filter(|item| !is_value(item)).count()
    }

    /// Whether a reply to this identifier is there.
    pub fn has_answer(&self, smid: Smid) -> bool
        ensures { result ≡ list_any (is_answered_by smid) self.now }
    {
        self.items.iter().any(|item| is_answered_by(item, smid))
    }

    /// Whether a reply in this reply frame is there.
    pub fn has_frame(&self, frame: u8) -> bool
        requires { frame < 64 }
        ensures { result ≡ list_any (is_in_frame frame) self.now }
    {
        self.items.iter().any(|item| is_in_frame(item, frame))
    }
}

// Whether an item is the value of a read.
fn is_value(item: &Up) -> bool
    ensures { result ≡ is_value item.now }
{
    matches!(item, Up::Value(_))
}

// Whether an item is a reply to this identifier.
fn is_answered_by(item: &Up, smid: Smid) -> bool
    ensures { result ≡ is_answered_by smid item.now }
{
    match item {
        Up::Reply { descriptor, .. } => *descriptor / 0x1_0000 % 0x1_0000 == u64::from(smid),
        _ => false,
    }
}

// Whether an item is a reply in this reply frame.
fn is_in_frame(item: &Up, frame: u8) -> bool
    requires { frame < 64 }
    ensures { result ≡ is_in_frame frame item.now }
{
    match item {
        Up::Reply {
            descriptor,
            frame: Some(_),
            ..
        } => *descriptor / 0x1_0000_0000 == u64::from(frame_address(u32::from(frame))),
        _ => false,
    }
}
