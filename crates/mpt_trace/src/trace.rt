//! Traces.
ghost use Rattle.std.specs.Prelude.{◌≡◌, ◌≤◌, ◌<◌, ◌+◌, ◌++◌, [], ◌∷◌, IsOk, OnOk, OnErr, length, option_copied, slice_get};

use crate::entry::Entry;
use mpt_text::OutOfMemory;
use std::alloc::Global;
use std::marker::Model;

/// A trace. A contract sees its entries, oldest first, and its room: how many more have their memory
/// already.
#[derive(Drop)]
pub struct Trace {
    items: Vec<Entry>,
}

impl Model for Trace {
    ghost use Rattle.std.specs.Prelude.{◌-◌, vec_len, vec_capacity};
    ghost use Rattle.mpt_trace.specs.Held.{Held};

    ghost Value = { Held };

    ghost view = { λ t. record { entries = t.items.items; room = vec_capacity t.items - vec_len t.items } };
}

impl Trace {
    /// A trace without entries.
    pub fn new(alloc: Global) -> Trace
        ensures { result.entries ≡ [] }
    {
        Trace {
            items: Vec::new(alloc),
        }
    }

    /// Adds an entry at the end, in constant time but where the memory has to grow. It answers Ok
    /// where there is room. Where memory is wanting the trace keeps its entries, and the new one is
    /// dropped.
    pub fn push(&mut self, e: Entry) -> Result<(), OutOfMemory>
        ensures ok { OnOk result (self.new.entries ≡ self.old.entries ++ e ∷ []) }
        ensures err { OnErr result (self.new.entries ≡ self.old.entries) }
        ensures reserved { 0 < self.old.room → IsOk result }
        ensures room { self.old.room ≤ self.new.room + 1 }
    {
        self.items.push(e)?;
        Ok(())
    }

    /// Takes the memory of `n` more entries: the next `n` pushes answer Ok. Where memory is wanting
    /// nothing changes.
    pub fn reserve(&mut self, n: usize) -> Result<(), OutOfMemory>
        ensures ok { OnOk result (n ≤ self.new.room) }
        ensures same { self.new.entries ≡ self.old.entries }
        ensures room { self.old.room ≤ self.new.room }
    {
        self.items.reserve(n)
    }

    /// The entry at a place, counted from 0. None exactly past the end.
    pub fn get(&self, i: usize) -> Option<&Entry>
        ensures { option_copied result ≡ slice_get self.now.entries i }
    {
        self.items.get(i)
    }

    /// How many entries there are.
    pub fn len(&self) -> usize
        ensures { result ≡ length self.now.entries }
    {
        self.items.len()
    }

    /// The entries as a slice.
    pub fn as_slice(&self) -> &[Entry]
        ensures { result.now ≡ self.now.entries }
    {
        &self.items
    }
}
