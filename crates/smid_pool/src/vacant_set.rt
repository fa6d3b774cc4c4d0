//! Which places are vacant, a bit for each.
ghost use Rattle.std.specs.Prelude.{◌≡◌, ◌≢◌, ◌≤◌, ◌<◌, ◌/◌, ◌%◌, ℕ, MatchOption, true, false};
ghost use Rattle.mpi_names.specs.declared.smid.TheConstants.{SMIDS};
ghost use Rattle.smid_pool.specs.VacantSet.{HasNone, IsFirst, has};

use crate::class::Class;

// The number of bits in a word.
const WORD: usize = 64;
// The number of words, enough for 280 places.
const WORDS: usize = 5;

/// A set of places, as bits: place p is bit p % 64 of word p / 64. So the first place of a set is
/// found in the same few steps, however many are gone.
#[derive(Debug, Drop)]
pub struct VacantSet {
    words: [u64; WORDS],
}

impl VacantSet {
    /// All 280 places.
    pub fn full() -> VacantSet
        ensures { (place : ℕ) → place < SMIDS → has result.words place ≡ true }
    {
        VacantSet {
            words: [u64::MAX, u64::MAX, u64::MAX, u64::MAX, 0xff_ffff],
        }
    }

    /// Puts a place in.
    pub fn insert(&mut self, place: usize)
        requires { place < SMIDS }
        ensures here { has self.new.words place ≡ true }
        ensures others { (other : ℕ) → other ≢ place → has self.new.words other ≡ has self.old.words other }
    {
        let word = place / WORD;
        self.words[word] |= 1 << (place % WORD);
    }

    /// Takes a place out.
    pub fn remove(&mut self, place: usize)
        requires { place < SMIDS }
        ensures here { has self.new.words place ≡ false }
        ensures others { (other : ℕ) → other ≢ place → has self.new.words other ≡ has self.old.words other }
    {
        let word = place / WORD;
        self.words[word] &= !(1 << (place % WORD));
    }

    /// The first place of the set from `start` on.
    pub fn first_from(&self, start: usize) -> Option<usize>
        requires { start < SMIDS }
        ensures { MatchOption result ((place : ℕ) → start ≤ place → place < SMIDS → has self.now.words place ≡ false)
            (λ first. (start ≤ first) × (has self.now.words first ≡ true)
            × ((place : ℕ) → start ≤ place → place < first → has self.now.words place ≡ false)) }
    {
        let mut low = start % WORD;
        for i in start / WORD..WORDS {
            let word = self.words[i] & (u64::MAX << low);
            if word != 0 {
                return Some(WORD * i + word.trailing_zeros() as usize);
            }
            low = 0;
        }
        None
    }

    /// The first place of a class that is in the set.
    pub fn first_in(&self, class: Class) -> Option<usize>
        ensures { MatchOption result (HasNone self.now.words class) (IsFirst self.now.words class) }
    {
        let first = self.first_from(class.before())?;
        if first < class.before() + class.size() {
            Some(first)
        } else {
            None
        }
    }
}
