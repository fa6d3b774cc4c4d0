//! Laws of messages. The functions do nothing: what their contracts say is all that they are for.
#![tactic(auto)]

mod laws;

pub use laws::{
    aborts_are_of_accepted, aborts_are_of_accepted_at_first, open_commands_are_known,
    posts_are_kept,
};
