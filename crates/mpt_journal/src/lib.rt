//! Journals: what each party of a threaded session did, each entry with its stamp, and their merge
//! into the one trace by rising stamp and party number.
#![tactic(auto)]

mod journal;
mod laws;
mod merging;
mod moment;
mod stamped;
#[cfg(test)]
mod tests;

pub use journal::Journal;
pub use laws::{merge_is_by_stamp, merge_keeps_cases, merge_keeps_journals};
pub use merging::merge;
pub use mpt_trace::{Entry, OutOfMemory, Party, Trace};
pub use stamped::Stamped;
