//! Laws of what aborts and target resets count. The functions do nothing: what their contracts say is all that they are for.
#![tactic(auto)]

mod laws;

pub use laws::{
    counts_are_kept, counts_fit_at_first, counts_pass, fabric_answers_at_first, only_high_stays,
    progress_is_kept,
};
