//! Laws of what the controller has at the fabric, and asks of it. The functions do nothing: what their contracts say is all that
//! they are for.
#![tactic(auto)]

mod laws;

pub use laws::{
    open_commands_are_of_bytes, open_commands_are_of_bytes_at_first, requests_are_kept,
};
