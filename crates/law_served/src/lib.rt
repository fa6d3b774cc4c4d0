//! Laws of the handles that plugged disks are given. The functions do nothing: what their contracts say is all that they are for.
#![tactic(auto)]

mod laws;

pub use laws::{events_are_let_through, plugs_are_served};
