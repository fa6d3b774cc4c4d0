//! Laws of a command's path: how far it is there. The functions do nothing: what their contracts say is all that they are for.
#![tactic(auto)]

mod laws;

pub use laws::{
    commands_walk, further_paths_are_kept, marks_are_kept, payloads_fit, replies_tell,
    stages_are_kept,
};
