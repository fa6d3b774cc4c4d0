//! The contexts of the events that aren't acknowledged.
ghost use Rattle.std.specs.Prelude.{◌≡◌, IfOk, OnErr, OnOk, not};
ghost use Rattle.std.specs.Ordering.{nat_cmp};
ghost use Rattle.std.specs.FinSet as set;

use mpt_rules::OutOfMemory;
use std::alloc::Global;
use std::collections::BTreeSet;
use std::marker::Model;

/// The contexts of the events that aren't acknowledged. A contract sees the finite set.
#[derive(Drop)]
pub struct Contexts {
    contexts: BTreeSet<u32>,
}

impl Model for Contexts {
    ghost use Rattle.std.specs.Ordering.{nat_cmp};
    ghost use Rattle.std.specs.FinSet as set;
    ghost use Rattle.std.specs.Coded.{coded_ℕ};

    ghost Value = { set.FinSet nat_cmp };

    ghost coded = { set.code coded_ℕ };

    ghost view = { λ c. set.from_list c.contexts.keys };
}

impl Contexts {
    /// None.
    pub fn new(alloc: Global) -> Contexts
        ensures { result ≡ set.empty }
    {
        Contexts {
            contexts: BTreeSet::new(alloc),
        }
    }

    /// Whether the context is there.
    pub fn has(&self, context: u32) -> bool
        ensures { result ≡ set.contains self.now context }
    {
        self.contexts.contains(&context)
    }

    /// Adds a context, and gives whether it is new.
    pub fn add(&mut self, context: u32) -> Result<bool, OutOfMemory>
        ensures added { IfOk result (λ added. added ≡ not (set.contains self.old context)) }
        ensures ok { OnOk result (self.new ≡ set.insert self.old context) }
        ensures stays { OnErr result (self.new ≡ self.old) }
    {
        Ok(self.contexts.insert(context)?)
    }

    /// Takes a context away, if it is there.
    pub fn remove(&mut self, context: u32)
        ensures { self.new ≡ set.remove self.old context }
    {
        self.contexts.remove(&context);
    }

    /// Takes all away.
    pub fn clear(&mut self)
        ensures { self.new ≡ set.empty }
    {
        self.contexts.clear();
    }
}
