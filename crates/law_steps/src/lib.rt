//! Laws of a reset's steps at the doorbell. The functions do nothing: what their contracts say is all that they are for.
#![tactic(auto)]

mod laws;

pub use laws::{adapter_bit_is_kept, reset_steps_are_kept};
