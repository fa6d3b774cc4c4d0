//! Laws of what the host hears and tells of it. The functions do nothing: what their contracts say is all that they are for.
#![tactic(auto)]

mod laws;

pub use laws::lanes_are_marked;
