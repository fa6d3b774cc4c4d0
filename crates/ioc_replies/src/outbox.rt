//! The outbox of one reply queue.
ghost use Rattle.std.specs.Prelude.{◌≡◌, ◌≤◌, ◌<◌, ◌+◌, ◌++◌, ◌∷◌, [], OnErr, OnOk, drop, filter, option_copied, slice_get};
ghost use Rattle.std.specs.List.{list_any};
ghost use Rattle.mpt_rules.specs.Ioc.Places.{is_empty, is_reply_of};
ghost use Rattle.mpt_rules.specs.Ioc.Resets.{outlives_reset};
ghost use Rattle.mpt_rules.specs.World.Weight.{is_said_value, said_items};

use mpt_rules::{OutOfMemory, Said};
use mpt_trace::Smid;
use std::alloc::Global;
use std::collections::VecDeque;
use std::marker::Model;

/// What waits for one reply queue, the next first. A contract sees the items, and for how many more there is room.
#[derive(Drop)]
pub struct Outbox {
    items: VecDeque<Said>,
}

impl Model for Outbox {
    ghost use Rattle.std.specs.Prelude.{◌-◌};
    ghost use Rattle.std.specs.VecDeque.{deque_capacity, deque_len};
    ghost use Rattle.ioc_replies.specs.Outboxes.{OutboxSeen};

    ghost Value = { OutboxSeen };

    ghost view = { λ o. record { items = o.items.items; spare = deque_capacity o.items - deque_len o.items } };
}

impl Outbox {
    /// An empty one.
    pub fn new(alloc: Global) -> Outbox
        ensures { result.items ≡ [] }
    {
        Outbox {
            items: VecDeque::new(alloc),
        }
    }

    /// Makes room for so many items more.
    pub fn reserve(&mut self, count: usize) -> Result<(), OutOfMemory>
        ensures items { self.new.items ≡ self.old.items }
        ensures room { self.old.spare ≤ self.new.spare }
        ensures ok { OnOk result (count ≤ self.new.spare) }
    {
        self.items.try_reserve(count)
    }

    /// Puts an item behind the others. There is room.
    pub fn put(&mut self, said: Said)
        requires { 0 < self.old.spare }
        ensures items { self.new.items ≡ self.old.items ++ said ∷ [] }
        ensures room { self.new.spare + 1 ≡ self.old.spare }
    {
        self.items.push_back_reserved(said);
    }

    /// The next item, which stays. None exactly where there is none.
    pub fn front(&self) -> Option<&Said>
        ensures { option_copied result ≡ slice_get self.now.items 0 }
    {
        self.items.front()
    }

    /// Takes the next item. None exactly where there is none.
    pub fn pop(&mut self) -> Option<Said>
        ensures front { result ≡ slice_get self.old.items 0 }
        ensures rest { self.new.items ≡ drop 1 self.old.items }
        ensures room { self.old.spare ≤ self.new.spare }
    {
        self.items.pop_front()
    }

    /// Drops what a reset drops.
    pub fn renew(&mut self)
        ensures items { self.new.items ≡ filter outlives_reset self.old.items }
        ensures room { self.old.spare ≤ self.new.spare }
    {
        self.items
            .retain(|said| matches!(said, Said::Value(_) | Said::Calm));
    }

    /// How many items wait, values not counted.
    pub fn said_count(&self) -> usize
        ensures { result ≡ said_items self.now.items }
    {
        self.items.iter().filter(|said| !is_value(said)).count()
    }

    /// Whether nothing waits.
    pub fn is_empty(&self) -> bool
        ensures { result ≡ is_empty self.now.items }
    {
        self.items.is_empty()
    }

    /// Whether a reply of the identifier waits.
    pub fn has_reply(&self, smid: Smid) -> bool
        ensures { result ≡ list_any (is_reply_of smid) self.now.items }
    {
        self.items.iter().any(|said| is_reply_of(smid, said))
    }
}

// Whether it is the value of a read.
fn is_value(said: &Said) -> bool
    ensures { result ≡ is_said_value said.now }
{
    matches!(said, Said::Value(_))
}

// Whether it is a reply of the identifier.
fn is_reply_of(smid: Smid, said: &Said) -> bool
    ensures { result ≡ is_reply_of smid said.now }
{
    match said {
        Said::Success { smid: of, .. } | Said::Framed { smid: of, .. } => *of == smid,
        Said::Value(_) | Said::Mark { .. } | Said::Calm => false,
    }
}
