//! Laws of the limits. The functions do nothing: what their contracts say is all that they are for.
#![tactic(auto)]

mod laws;

pub use laws::{handles_are_of_disks, limits_are_kept, wiring_is_kept};
