//! The law of plans: each plan that a text stands for keeps the limits of a session. The function does nothing: what its
//! contract says is all that it is for.
#![tactic(auto)]

mod laws;

pub use laws::plans_keep_limits;
