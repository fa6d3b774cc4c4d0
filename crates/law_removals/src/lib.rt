//! Laws of the removal of handles. The functions do nothing: what their contracts say is all that they are for.
#![tactic(auto)]

mod laws;

pub use laws::{
    lasts_are_kept, pages_are_bound, removals_are_known, resets_are_bound, unbinds_pass,
};
