//! The lines of schedules and plans: their words, numbers and forms, each line by itself.
#![tactic(auto)]

mod command;
mod fault;
mod numbers;
mod pieces;
mod statement;

pub use fault::{Cause, ScriptFault};
pub use numbers::word_number;
pub use pieces::Pieces;
pub use statement::{PlanStatement, Statement, plan_line, schedule_line};
