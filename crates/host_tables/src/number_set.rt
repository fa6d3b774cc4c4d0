//! Sets of the numbers of submissions.
ghost use Rattle.std.specs.Prelude.{◌≡◌, OnOk, OnErr, true, false};
ghost use Rattle.std.specs.FinSet as set;
ghost use Rattle.host_tables.specs.Numbered.{is_newest};

use mpt_rules::OutOfMemory;
use std::alloc::Global;
use std::collections::BTreeSet;
use std::marker::Model;

/// A set of numbers of submissions. Where `make_room` was called before, the next number takes no
/// memory: it stands beside the tree until there is room for it there.
#[derive(Drop)]
pub struct NumberSet {
    settled: BTreeSet<u32>,
    newest: Option<u32>,
}

impl Model for NumberSet {
    ghost use Rattle.std.specs.Prelude.{is_none};
    ghost use Rattle.std.specs.FinSet as set;
    ghost use Rattle.host_tables.specs.Numbered.{NumberedSet, numbered_set_code, with_newest_number};

    ghost Value = { NumberedSet };

    ghost coded = { numbered_set_code };

    ghost view = { λ n. record { set = with_newest_number n.newest (set.from_list n.settled.keys); has_room = is_none n.newest } };
}

impl NumberSet {
    /// No numbers, with room for one.
    pub fn new(alloc: Global) -> NumberSet
        ensures { result ≡ record { set = set.empty; has_room = true } }
    {
        NumberSet {
            settled: BTreeSet::new(alloc),
            newest: None,
        }
    }

    /// Whether a number is in it.
    pub fn contains(&self, n: u32) -> bool
        ensures { result ≡ set.contains self.now.set n }
    {
        is_that(&self.newest, n) || self.settled.contains(&n)
    }

    /// Makes room for one number. It takes no memory where there is room.
    pub fn make_room(&mut self) -> Result<(), OutOfMemory>
        ensures ok { OnOk result (self.new.has_room ≡ true) }
        ensures same { self.new.set ≡ self.old.set }
        ensures full { OnErr result (self.old.has_room ≡ false) }
    {
        let Some(n) = self.newest.take() else {
            return Ok(());
        };
        match self.settled.insert(n) {
            Ok(_) => Ok(()),
            Err(failed) => {
                self.newest = Some(failed.value);
                Err(OutOfMemory)
            }
        }
    }

    /// Puts a number in. There is room for it.
    pub fn put(&mut self, n: u32)
        requires { self.old.has_room ≡ true }
        ensures { self.new.set ≡ set.insert self.old.set n }
    {
        self.newest = Some(n);
    }
}

// Whether the newest number is this one.
fn is_that(newest: &Option<u32>, n: u32) -> bool
    ensures { result ≡ is_newest newest.now n }
{
    match newest {
        Some(k) => *k == n,
        None => false,
    }
}
