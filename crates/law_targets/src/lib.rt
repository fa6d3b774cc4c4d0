//! Laws of where commands go: to the plug for which they were accepted. The functions do nothing: what their contracts say is
//! all that they are for.
#![tactic(auto)]

mod laws;

pub use laws::{
    commands_stay_aimed, commands_stay_bound, off_hosts_stay_unknown, orders_wait_for_init,
    pages_stay_known, plugs_are_told, tasks_go_to_their_disks,
};
