//! Where the record of an identifier is.
ghost use Rattle.std.specs.Prelude.{◌≡◌, ◌≤◌, length, count_by, take, drop, replicate, IfOk};
ghost use Rattle.smid_pool.specs.Class.{before, size_of};
ghost use Rattle.smid_pool.specs.Place.{is_vacant, place_of};

use crate::class::Class;
use crate::out_of_memory::OutOfMemory;
use mpi_names::{SMIDS, Smid};
use std::alloc::Global;

/// The state of an identifier, with the key of an open one's record.
#[derive(Clone, Copy, Debug)]
pub enum Place {
    /// Free.
    Vacant,
    /// Open, with its record under this key.
    Holding(usize),
    /// Parked.
    Waiting,
}

/// A vacant place for each identifier, or OutOfMemory.
pub fn vacant_places(alloc: Global) -> Result<Vec<Place>, OutOfMemory>
    ensures { IfOk result (λ places. places.items ≡ replicate SMIDS Place.Vacant) }
{
    Ok(vec![in alloc; Place::Vacant; SMIDS]?)
}

/// Makes every place vacant.
pub fn vacate(places: &mut [Place])
    ensures { places.new ≡ replicate (length places.old) Place.Vacant }
{
    places.fill(Place::Vacant);
}

/// The place of an identifier. What is no identifier reads as vacant.
pub fn place_at(places: &[Place], smid: Smid) -> Place
    ensures { result ≡ place_of places.now smid }
{
    match usize::from(smid).checked_sub(1) {
        Some(index) if index < places.len() => places[index],
        _ => Place::Vacant,
    }
}

/// How many places of a class are vacant.
pub fn vacant_count(places: &[Place], class: Class) -> usize
    requires { length places.now ≡ SMIDS }
    ensures value { result ≡ count_by is_vacant (take (size_of class) (drop (before class) places.now)) }
    ensures bound { result ≤ SMIDS }
{
    let start = class.before();
    let end = start + class.size();
    places[start..end]
        .iter()
        .filter(|place| matches!(place, Place::Vacant))
        .count()
}
