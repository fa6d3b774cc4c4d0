//! The facts hold of the first world of any setting. The functions do nothing: what their contracts say is all that they are for.
#![tactic(auto)]

mod laws;

pub use laws::{clocks_stand_at_first, doorbells_stand_at_first, facts_stand_at_first};
