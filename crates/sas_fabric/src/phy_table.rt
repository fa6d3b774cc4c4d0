//! Which disk stands at each phy.
ghost use Rattle.std.specs.Prelude.{◌≡◌, ◌≢◌, IfOk, IfSome, IsSome, None, Some};
ghost use Rattle.mpt_rules.specs.Fabric.Parts.{Place};
ghost use Rattle.sas_fabric.specs.Disks.{slot_of, stands_in};

use crate::making::{MAX_EXPANDERS, MAX_PHYS};
use crate::place::Place;
use mpt_rules::OutOfMemory;
use std::alloc::Global;
use std::marker::Model;

// The number of phys that there may be.
const SLOTS: usize = 352;

/// Which disk stands at each phy, by its place among the disks.
#[derive(Drop)]
pub struct PhyTable {
    slots: Vec<Option<usize>>,
}

impl Model for PhyTable {
    ghost use Rattle.std.specs.Prelude.{◌≡◌, ℕ, List, Option, length};

    ghost Value = { List (Option ℕ) };

    ghost view = { λ t. t.slots.items };

    ghost invariant = { λ t. length t.slots.items ≡ 352 };
}

impl PhyTable {
    /// A table of phys at which no disk stands; or OutOfMemory.
    pub fn new(alloc: Global) -> Result<PhyTable, OutOfMemory>
        ensures { IfOk result (λ table. (place : Place) → stands_in table place ≡ None) }
    {
        Ok(PhyTable {
            slots: vec![in alloc; None; SLOTS]?,
        })
    }

    /// The disk that stands at a phy.
    pub fn at(&self, place: Place) -> Option<usize>
        ensures { result ≡ stands_in self.now place }
    {
        self.slots[slot_of(place)?]
    }

    /// Puts a disk at a phy.
    pub fn put(&mut self, place: Place, disk: usize)
        requires { IsSome (slot_of place) }
        ensures here { stands_in self.new place ≡ Some disk }
        ensures others { (other : Place) → other ≢ place → stands_in self.new other ≡ stands_in self.old other }
    {
        let slot = slot_of(place).unwrap();
        self.slots[slot] = Some(disk);
    }

    /// Takes a disk from the phy where it stands, if it stands at one.
    pub fn clear(&mut self, at: Option<Place>)
        requires { IfSome at (λ place. IsSome (slot_of place)) }
        ensures here { IfSome at (λ place. stands_in self.new place ≡ None) }
        ensures others { (other : Place) → at ≢ Some other → stands_in self.new other ≡ stands_in self.old other }
    {
        let Some(place) = at else {
            return;
        };
        let slot = slot_of(place).unwrap();
        self.slots[slot] = None;
    }
}

// The slot of a phy. None where there can be no such phy.
fn slot_of(place: Place) -> Option<usize>
    ensures { result ≡ slot_of place }
{
    let expander = usize::from(place.expander());
    if expander < MAX_EXPANDERS && place.phy() < MAX_PHYS {
        Some(usize::from(MAX_PHYS) * expander + usize::from(place.phy()))
    } else {
        None
    }
}
