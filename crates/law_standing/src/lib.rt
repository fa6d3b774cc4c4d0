//! Laws of what is put on the lanes: each frame is a message with its values. The functions do nothing: what their contracts
//! say is all that they are for.
#![tactic(auto)]

mod laws;

pub use laws::{
    messages_pass, outcomes_fit_at_first, outcomes_stay_fit, replies_are_written_at_first,
    replies_stay_written,
};
