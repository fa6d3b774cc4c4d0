//! Laws of schedules: each keeps the limits that the law speaks of, and what it does is what some list of cases does, turn
//! by turn; and of the summaries of schedules and sessions. The functions do nothing: what their contracts say is all that they are for.
#![tactic(auto)]

mod laws;

pub use laws::{
    replays_are_of_cases, replays_are_turns, runs_so_far_are_of_cases, schedules_keep_limits,
    session_summaries_tell, summaries_tell,
};
