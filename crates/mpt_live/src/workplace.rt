//! What the parties of a session share beside their lanes.
use crate::gate::Gate;
use crate::pumped::Pumped;
use mpt_journal::OutOfMemory;
use mpt_trace::Party;
use std::sync::Wait;
use std::sync::atomic::{AtomicBool, AtomicU64, Ordering};

// The word that threads sleep on is the lower half of the count.
const HALF: u64 = 1 << 32;

/// What the parties of a session share beside their lanes: whether memory was wanting, and a count by which a party that
/// stands still is woken. Nothing is said of when a party is woken.
#[derive(Drop)]
pub struct Workplace {
    spent: AtomicBool,
    // It rises when moves were made, and when memory was wanting.
    news: AtomicU64,
    // So many parties are about to sleep, or asleep.
    sleepers: AtomicU64,
}

impl Workplace {
    /// Memory isn't wanting, and no moves were made.
    pub fn new() -> Workplace {
        Workplace {
            spent: AtomicBool::new(false),
            news: AtomicU64::new(0),
            sleepers: AtomicU64::new(0),
        }
    }

    /// Whether memory was wanting for one of the parties.
    pub fn is_spent(&self) -> bool {
        self.spent.load(Ordering::SeqCst)
    }

    /// The party is about to pump: what the count was before. OutOfMemory where memory was wanting anywhere.
    pub(crate) fn begin<G: Gate>(&self, gate: &G, party: Party) -> Result<u64, OutOfMemory> {
        if self.is_spent() {
            return Err(OutOfMemory);
        }
        gate.turn(party);
        Ok(self.news.load(Ordering::SeqCst))
    }

    /// Memory was wanting: each party ends.
    pub fn spend(&self) {
        self.spent.store(true, Ordering::SeqCst);
        self.tell();
    }

    /// The party has pumped since `begin` answered `seen`. Where it made no moves and hasn't ended, it waits until another
    /// party has made some, or memory is wanting.
    pub(crate) fn end<R: Wait>(&self, rt: &R, seen: u64, pumped: Pumped) {
        if pumped.moves > 0 {
            self.tell();
        } else if !pumped.ended {
            self.sleepers.fetch_add(1, Ordering::SeqCst);
            self.news.park(rt, (seen % HALF) as u32);
            self.sleepers.fetch_sub(1, Ordering::SeqCst);
        }
    }

    // Wakes those that sleep. Who counts as a sleeper later finds the new count.
    fn tell(&self) {
        self.news.fetch_add(1, Ordering::SeqCst);
        if self.sleepers.load(Ordering::SeqCst) > 0 {
            self.news.wake_all();
        }
    }
}
