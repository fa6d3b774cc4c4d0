//! Laws of what the controller says. The functions do nothing: what their contracts say is all that they are for.
#![tactic(auto)]

mod laws;

pub use laws::{events_are_kept, events_stand_at_first, events_tell_one_change};
