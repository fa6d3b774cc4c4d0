//! Laws of the doorbell. The functions do nothing: what their contracts say is all that they are for.
#![tactic(auto)]

mod laws;

pub use laws::{doors_are_kept, reset_writes_are_heeded};
