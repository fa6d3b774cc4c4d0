//! Whether the trace of a session fits its plan.
#![tactic(auto)]

mod asks;
mod fabric;
mod fits;
mod same;
mod tells;
mod walks;

pub use fits::fits_plan;
