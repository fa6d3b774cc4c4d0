//! Laws of a start's beginning: nothing is open, and nothing is on its way. The functions do nothing: what their
//! contracts say is all that they are for.
#![tactic(auto)]

mod laws;

pub use laws::{starts_are_bare, starts_are_bare_at_first, starts_begin_fresh};
