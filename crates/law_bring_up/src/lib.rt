//! Laws of the start's two requests, the event notification and the port enable. The functions do nothing: what their contracts say
//! is all that they are for.
#![tactic(auto)]

mod laws;

pub use laws::{enables_stand_at_first, enables_stay, starts_are_brought_up};
