//! Laws of what the controller asked of the fabric. The functions do nothing: what their contracts say is all that they are for.
#![tactic(auto)]

mod laws;

pub use laws::{orders_are_kept, orders_stand_at_first};
