//! Laws of the frames that the host returns, and of all that is on its way. The functions do nothing: what their contracts say is all that they are for.
#![tactic(auto)]

mod laws;

pub use laws::{flights_are_kept, frames_are_returned, further_flights_are_kept};
