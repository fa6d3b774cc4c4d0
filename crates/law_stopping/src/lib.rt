//! Laws of what aborts and target resets are known for, and of what the aborts of a command stop. The functions do nothing: what their contracts say is all
//! that they are for.
#![tactic(auto)]

mod laws;

pub use laws::{
    lives_stay_fair, replies_are_awaited, stops_pass, targets_are_known, turns_are_known_at_first,
};
