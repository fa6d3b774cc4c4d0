//! Schedules and plans: what a run is told to do, as text.
//!
//! A schedule is a list of lines that one run follows in order. A plan has blocks of lines that
//! several parts of a session follow side by side.
#![tactic(auto)]

mod declared;
mod generator;
mod hexadecimal;
mod line;
mod plan;
mod plan_text;
mod planning;
mod print;
mod printed_plan;
mod schedule;
mod schedule_stage;
#[cfg(test)]
mod tests;

pub use generator::generate;
pub use hexadecimal::read_hex;
pub use line::Line;
pub use mpt_lines::{Cause, ScriptFault};
pub use mpt_text::OutOfMemory;
pub use plan::{Inputs, Plan};
pub use plan_text::read_plan;
pub use print::print_schedule;
pub use printed_plan::print_plan;
pub use schedule::{Schedule, read_schedule};
