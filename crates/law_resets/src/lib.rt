//! Laws of the resets: their marks, and what the rules know of them. The function does nothing: what its contract says is all
//! that it is for.
#![tactic(auto)]

mod laws;

pub use laws::resets_are_kept;
