//! What C calls of the controller and the fabric: each call is one call of their crates, with a code for its answer.
//! `mpt_c` keeps them behind handles and exports it.
#![tactic(auto)]

mod down;
mod loose;
mod making;
mod plugging;
mod pumping;
mod steps;
mod up;

pub use down::{take_post, take_read, take_return, take_write};
pub use loose::Loose;
pub use making::{DiskWords, make_fabric, make_ioc};
pub use plugging::{announce, oldest_tag, plug, run, unplug};
pub use pumping::{give_back, give_out};
pub use steps::{step_high, step_normal};
pub use up::put_up;
