//! Laws of the aborts that stop a command in the controller's queue. The functions do nothing: what their contracts say is
//! all that they are for.
#![tactic(auto)]

mod laws;

pub use laws::{ends_agree_at_first, ends_stay_agreed, highs_agree};
