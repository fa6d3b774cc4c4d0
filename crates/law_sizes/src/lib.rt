//! Laws of the sizes of tables. The functions do nothing: what their contracts say is all that they are for.
#![tactic(auto)]

mod laws;

pub use laws::{sizes_are_kept, sizes_stand, sizes_stand_at_first};
