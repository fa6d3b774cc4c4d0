//! Laws of what becomes of an open command. The functions do nothing: what their contracts say is all that they are for.
#![tactic(auto)]

mod laws;

pub use laws::{results_have_outcomes, runs_stay_by_stage};
