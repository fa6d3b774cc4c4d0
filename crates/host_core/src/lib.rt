//! The host: its driver, which brings the controller up, submits commands and ends them, answers what
//! the controller tells of disks that come and go, and resets the controller.
//!
//! A contract sees a `Host` as the record of the host's rules, with what it told, and each call leaves
//! what the rules say. A call takes all the memory that it needs before it changes anything.
#![tactic(auto)]

mod faults;
mod host;
mod moves;
mod places;
#[cfg(test)]
mod play_tests;
mod playing;
#[cfg(test)]
mod take_tests;
mod talk;
#[cfg(test)]
mod tests;

pub use faults::{HostFault, TakeFault};
pub use host::Host;
pub use moves::{HostMove, HostSaid};
pub use mpt_rules::{HostFrame, OutOfMemory, Why};
pub use places::HostSmid;
pub use playing::play;
pub use talk::HostTalk;
