//! Laws of the lives of handles. The functions do nothing: what their contracts say is all that they are for.
#![tactic(auto)]

mod laws;

pub use laws::{bindings_are_kept, lives_are_kept, phases_are_kept};
