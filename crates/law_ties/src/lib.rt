//! Laws of what ties entries beside the paths and the handles. The functions do nothing: what their contracts say is all
//! that they are for.
#![tactic(auto)]

mod laws;

pub use laws::{
    holders_agree_at_first, holders_are_kept, indices_are_kept, indices_are_of_queues_at_first,
    indices_go_on, least_identifiers_are_accepted, replies_take_the_first_frame, resets_unbind,
    rings_are_kept, words_agree,
};
