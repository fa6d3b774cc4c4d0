//! Laws of the clock of resets as a whole, with what a host that is up has of its controller. The functions do nothing:
//! what their contracts say is all that they are for.
#![tactic(auto)]

mod laws;

pub use laws::clocks_are_kept;
