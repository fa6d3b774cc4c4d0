//! Laws of the pages that the host has: of which disk each is. The functions do nothing: what their contracts say is all that
//! they are for.
#![tactic(auto)]

mod laws;

pub use laws::{other_pages_stay_unknown, posts_go_to_pages, ready_handles_are_bound};
