//! Laws of what waits at the host for an identifier. The functions do nothing: what their contracts say is all that they are for.
#![tactic(auto)]

mod laws;

pub use laws::waits_are_for_identifiers;
