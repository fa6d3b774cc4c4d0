//! The law of recorded parties: whatever cases led the parties of a session, each by itself, to where they are, some
//! session of the rules leaves them so, and its trace is the merge of their journals.
#![tactic(auto)]

mod inputs;
mod laws;

pub use inputs::entered_inputs_fit;
pub use laws::journals_make_sessions;
