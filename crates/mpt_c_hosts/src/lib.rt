//! What C calls of the host: each call is one call of `host_core`, with a code for its answer. `mpt_c` keeps the host
//! behind a handle and exports it.
#![tactic(auto)]

mod asking;
mod down;
mod making;
mod strange_words;
mod submitting;
mod told;
mod up;

pub use asking::{abort, diag_reset, start, target_reset, unit_reset};
pub use down::{DownHead, put_down};
pub use making::{make_host, state};
pub use strange_words::StrangeWords;
pub use submitting::{SubmitHead, submit};
pub use told::{ToldHead, tell};
pub use up::hear_up;
