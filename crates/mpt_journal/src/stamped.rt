//! Entries with their stamps.
use mpt_trace::{Entry, Party};

/// An entry of a journal.
#[derive(Drop)]
pub struct Stamped {
    /// The time of its case, by its party's clock.
    pub stamp: u64,
    /// The party whose entry it is.
    pub party: Party,
    /// The entry.
    pub entry: Entry,
}
