//! Laws of the doorbell's handshakes: host and controller go on in lock step. The functions do nothing: what their
//! contracts say is all that they are for.
#![tactic(auto)]

mod laws;

pub use laws::{
    doors_rest, handshakes_are_kept, handshakes_go_in_lock_step, handshakes_stand_at_first,
};
