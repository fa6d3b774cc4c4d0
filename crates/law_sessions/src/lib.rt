//! Laws of sessions: a session does what a list of cases does; its merge is sorted, and each party's part of it is its
//! journal in order; its lanes are queues where takes are later than their puts; its trace fits its plan; and the host
//! takes the least free identifier in it. The functions do nothing: what their contracts say is all that they are for.
#![tactic(auto)]

mod laws;

pub use laws::{
    session_lanes_are_queues, session_modes_agree, session_tells_stand_behind,
    sessions_are_answered, sessions_are_as_worlds, sessions_are_merged, sessions_are_of_cases,
    sessions_fit_plans, sessions_take_least,
};
