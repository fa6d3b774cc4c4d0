//! The rules on the wire, as definitions on traces, and two laws on them: the machine of disks by SAS address and open
//! requests, the view of a trace that shows a run of it, what may stand on each lane, and which traces fit a schedule
//! or a plan.
#![tactic(auto)]

mod laws;

pub use laws::{passing_keeps_the_rules, requests_have_one_life};
