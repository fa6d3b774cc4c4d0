//! Laws of the doorbell as a whole. The functions do nothing: what their contracts say is all that they are for.
#![tactic(auto)]

mod laws;

pub use laws::{doorbells_are_kept, talks_are_kept, talks_stand_at_first};
