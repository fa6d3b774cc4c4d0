//! Schedules carried out: their lines one after the other on a system, and the report of all that
//! happened.
#![tactic(auto)]

mod carrying;
mod head;
mod replayed;
mod reporting;

pub use carrying::carry_out;
pub use head::Head;
pub use mpt_script::{Line, Schedule};
pub use mpt_system::System;
pub use mpt_text::{OutOfMemory, Text};
pub use mpt_trace::Summary;
pub use replayed::Replayed;
pub use reporting::{report_text, schedule_report, schedule_short_report, short_report_text};
