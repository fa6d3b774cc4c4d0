//! The whole by steps: the host, the controller and the fabric, the lanes between them, and the trace of
//! all that happened.
//!
//! A contract sees a `System` as the world of the rules and the entries that were told so far, and each
//! call leaves what the rules say of its case. Some list of cases has led to every `System`, so that what
//! the law says of all lists of cases holds of it.
#![tactic(auto)]

mod draining;
mod faults;
mod inputs;
mod laws;
mod making;
mod parties;
mod parts_summary;
mod place;
mod places;
#[cfg(test)]
mod places_tests;
mod puts;
mod queries;
mod refusals;
mod rounds;
mod stepping;
mod summary;
mod system;
mod takes;
mod told;
mod up_lane;
mod up_lanes;
mod weight;
mod works;

pub use disk_machine::PartsSummary;
pub use faults::{StepFault, SystemFault};
pub use laws::disks_stay;
pub use mpt_rules::OutOfMemory;
pub use mpt_trace::Summary;
pub use parts_summary::phases_summary;
pub use place::{FramePlace, SmidPlace};
pub use places::Places;
pub use stepping::Moved;
pub use system::System;
