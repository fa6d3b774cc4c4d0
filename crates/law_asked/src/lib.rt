//! Laws of what the controller asks of the fabric, and of what the fabric has of it. The functions do nothing: what their
//! contracts say is all that they are for.
#![tactic(auto)]

mod laws;

pub use laws::tasks_are_kept;
