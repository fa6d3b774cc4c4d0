//! Laws of the words of a handshake. The functions do nothing: what their contracts say is all that they are for.
#![tactic(auto)]

mod laws;

pub use laws::{handshakes_hand_over, words_are_kept, words_stand_at_first};
