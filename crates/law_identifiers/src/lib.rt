//! Laws of identifiers and reply frames: of the host's choice of them, over every list of cases and every schedule, and of
//! the place that is told of each. The functions do nothing: what their contracts say is all that they are for.
#![tactic(auto)]

mod laws;

pub use laws::{least_identifiers_are_taken, places_are_told, replays_take_least};
