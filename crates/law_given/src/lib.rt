//! Laws of the identifiers that the host gives. The functions do nothing: what their contracts say is all that they are for.
#![tactic(auto)]

mod laws;

pub use laws::high_identifiers_are_given;
