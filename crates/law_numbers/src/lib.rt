//! Laws of numbers and target resets. The functions do nothing: what their contracts say is all that they are for.
#![tactic(auto)]

mod laws;

pub use laws::{numbers_are_the_hosts, resets_are_the_hosts, tallies_are_the_hosts};
