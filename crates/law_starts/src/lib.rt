//! Laws of the doorbell: what no write on its way does, and what a controller that isn't OPERATIONAL knows of its host.
//! The functions do nothing: what their contracts say is all that they are for.
#![tactic(auto)]

mod laws;

pub use laws::{
    doors_stay_sound, init_asks_for_all_queues, off_hosts_have_nothing, starts_are_kept,
    starts_come_up_by_init, starts_find_ready, starts_stand_at_first,
};
