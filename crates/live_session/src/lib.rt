//! Threaded sessions of plans: the parties on their lanes, each in a thread of its own, joined at the end, with the merge of
//! their journals and its summary.
#![tactic(auto)]

mod cores;
mod ended;
mod ending;
mod lanes;
mod lines;
mod quiet;
mod sessions;
mod sides;
mod submitters;
#[cfg(test)]
mod tests;
mod works;

pub use ended::Ended;
pub use mpt_journal::{Journal, OutOfMemory};
pub use mpt_live::{Gate, OpenGate};
pub use mpt_script::Plan;
pub use sessions::session;
