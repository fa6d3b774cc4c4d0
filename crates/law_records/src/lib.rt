//! Laws of the host's records. The functions do nothing: what their contracts say is all that they are for.
#![tactic(auto)]

mod laws;

pub use laws::{records_are_kept, records_stand_at_first};
