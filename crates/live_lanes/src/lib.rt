//! The law of closed lanes: where the lanes of a session were closed, and each party's journal records what went through
//! its ends of them, the lanes of the session that the parties have made are queues.
#![tactic(auto)]

mod laws;
mod settling;

pub use laws::{
    closed_lanes_are_later, closed_sessions_are_orderly, counts_tell_all_is_taken,
    unused_lanes_are_recorded,
};
pub use settling::{SessionEnds, settle_all, settle_session};
