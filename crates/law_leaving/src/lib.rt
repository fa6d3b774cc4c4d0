//! Laws of handles that leave. The functions do nothing: what their contracts say is all that they are for.
#![tactic(auto)]

mod laws;

pub use laws::{held_resets_are_last, last_resets_are_kept, leaving_passes, leavings_are_known};
