//! The machine of disks as code, and the summary that ends a report.
#![tactic(auto)]

mod laws;
mod machine;
mod memory;
mod parts_summary;
mod refusals;
mod summary;
mod tally;
#[cfg(test)]
mod tests;
mod traced_disk;
mod walking;

pub use laws::summaries_agree;
pub use mpt_trace::{DiskSpec, Entry, OutOfMemory, Summary};
pub use parts_summary::PartsSummary;
pub use summary::summary_of_trace;
