//! Laws of what is ready. The functions do nothing: what their contracts say is all that they are for.
#![tactic(auto)]

mod laws;

pub use laws::{off_hosts_stay_ready, one_handle_is_ready, plugs_of_handles_are_ready};
