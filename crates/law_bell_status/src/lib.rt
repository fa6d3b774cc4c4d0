//! Laws of the interrupt status. The functions do nothing: what their contracts say is all that they are for.
#![tactic(auto)]

mod laws;

pub use laws::{bells_are_kept, bells_stand_at_first, statuses_are_right};
