//! Laws of the lanes up. The functions do nothing: what their contracts say is all that they are for.
#![tactic(auto)]

mod laws;

pub use laws::replies_keep_their_lanes;
