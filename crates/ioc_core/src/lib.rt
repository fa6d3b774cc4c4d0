//! The controller: its registers, the requests that it takes and what it answers, the disks that it knows by their
//! handles, and what it puts on its lanes.
//!
//! A contract sees an `Ioc` as the record of the controller's rules, with what it still has to tell, and each call
//! leaves what the rules say. A call takes all the memory that it needs before it changes anything.
#![tactic(auto)]

mod answers;
mod back;
#[cfg(test)]
mod call_tests;
mod commands;
mod configuration;
mod disks;
mod down;
mod fields;
mod free_frames;
mod handshakes;
mod ioc;
mod lists;
mod moves;
mod place;
mod places;
mod playing;
mod plugs;
mod posts;
mod registers;
mod requests;
mod resets;
mod sending;
mod steps;
mod tasks;
#[cfg(test)]
mod tests;

pub use ioc::Ioc;
pub use moves::{IocMove, IocSaid, IocTalk};
pub use mpt_rules::{Binding, NoRoom, OutOfMemory};
pub use place::IocPlace;
pub use playing::play;
