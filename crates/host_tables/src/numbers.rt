//! Maps from the numbers of submissions.
ghost use Rattle.std.specs.Prelude.{◌≡◌, ◌<◌, ◌^◌, ◌++◌, [], None, OnOk, OnErr, true, false, length, option_copied, option_to_list};
ghost use Rattle.std.specs.FinMap as map;
ghost use Rattle.host_tables.specs.Numbered.{newest_at, newest_without};

use mpt_rules::OutOfMemory;
use std::alloc::Global;
use std::collections::BTreeMap;
use std::marker::Model;

/// A map from the numbers of submissions, in their order. Where `make_room` was called before, the
/// next entry takes no memory: it stands beside the tree until there is room for it there.
#[derive(Drop)]
pub struct NumberMap<V> {
    settled: BTreeMap<u32, V>,
    newest: Option<(u32, V)>,
}

impl<V> Model for NumberMap<V> {
    ghost use Rattle.std.specs.Prelude.{is_none};
    ghost use Rattle.std.specs.FinMap as map;
    ghost use Rattle.host_tables.specs.Numbered.{Numbered, numbered_code, with_newest};

    ghost Value = { Numbered V };

    ghost coded = { numbered_code V.code };

    ghost view = { λ n. record { map = with_newest n.newest (map.from_entries n.settled.entries); has_room = is_none n.newest } };
}

impl<V: Drop> NumberMap<V> {
    /// No numbers, with room for one.
    pub fn new(alloc: Global) -> NumberMap<V>
        ensures { result ≡ record { map = map.empty; has_room = true } }
    {
        NumberMap {
            settled: BTreeMap::new(alloc),
            newest: None,
        }
    }

    /// What a number has.
    pub fn get(&self, n: u32) -> Option<&V>
        ensures { option_copied result ≡ map.get self.now.map n }
    {
        match newest_value(&self.newest, n) {
            Some(value) => Some(value),
            None => self.settled.get(&n),
        }
    }

    /// Makes room for one entry. It takes no memory where there is room.
    pub fn make_room(&mut self) -> Result<(), OutOfMemory>
        ensures ok { OnOk result (self.new.has_room ≡ true) }
        ensures same { self.new.map ≡ self.old.map }
        ensures full { OnErr result (self.old.has_room ≡ false) }
    {
        let Some((n, value)) = self.newest.take() else {
            return Ok(());
        };
        match self.settled.insert(n, value) {
            Ok(_) => Ok(()),
            Err(failed) => {
                self.newest = Some(failed.value);
                Err(OutOfMemory)
            }
        }
    }

    /// Puts an entry. There is room for it.
    pub fn put(&mut self, n: u32, value: V)
        requires { self.old.has_room ≡ true }
        ensures { self.new.map ≡ map.insert self.old.map n value }
    {
        self.newest = Some((n, value));
    }

    /// Takes a number out. Where there was room there is.
    pub fn remove(&mut self, n: u32)
        ensures map { self.new.map ≡ map.remove self.old.map n }
        ensures room { self.old.has_room ≡ true → self.new.has_room ≡ true }
    {
        self.settled.remove(&n);
        let newest = self.newest.take();
        self.newest = without(newest, n);
    }

    /// Takes the least number out. There is room for an entry. None exactly where there is no number.
    pub fn pop_first(&mut self) -> Option<u32>
        requires { self.old.has_room ≡ true }
        ensures first { map.keys self.old.map ≡ option_to_list result ++ map.keys self.new.map }
        ensures none { result ≡ None → map.keys self.old.map ≡ [] }
        ensures room { self.new.has_room ≡ true }
    {
        if self.settled.len() == 0 {
            return None;
        }
        match self.settled.pop_first() {
            Some((n, _)) => Some(n),
            None => None,
        }
    }

    /// How many numbers there are.
    pub fn len(&self) -> usize
        ensures value { result ≡ map.len self.now.map }
        ensures keys { result ≡ length (map.keys self.now.map) }
    {
        let settled = self.settled.len();
        match &self.newest {
            Some((n, _)) => {
                if self.settled.contains_key(n) {
                    settled
                } else {
                    settled + 1
                }
            }
            None => settled,
        }
    }

    /// Takes all numbers out. There is room for one.
    pub fn clear(&mut self)
        ensures { self.new ≡ record { map = map.empty; has_room = true } }
    {
        self.settled.clear();
        self.newest = None;
    }
}

// What the newest entry has for a number.
fn newest_value<V>(newest: &Option<(u32, V)>, n: u32) -> Option<&V>
    ensures { option_copied result ≡ newest_at newest.now n }
{
    match newest {
        Some((k, value)) => { if *k == n { Some(value) } else { None } }
        None => None,
    }
}

// The newest entry where it is another number's.
fn without<V: Drop>(newest: Option<(u32, V)>, n: u32) -> Option<(u32, V)>
    ensures { result ≡ newest_without newest n }
{
    let (k, value) = newest?;
    if k == n { None } else { Some((k, value)) }
}
