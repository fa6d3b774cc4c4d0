//! Laws of each party by itself, whatever its lanes bring, and so of every list of cases and every schedule. The functions
//! do nothing: what their contracts say is all that they are for.
#![tactic(auto)]

mod laws;

pub use laws::{
    answered_at_most_once, controllers_are_short, modes_agree, queues_stay_short,
    quiet_is_answered, replays_keep_these_laws, tells_stand_behind,
};
