//! The tables of the host: what it puts and tells, its open submissions, identifiers, device handles,
//! reply frames, reply post rings, and its machine at the doorbell.
//!
//! Each is seen as the part of the rules' record of the host that it stands for.
#![tactic(auto)]

mod command;
mod handle_phases;
mod identifiers;
mod lists;
mod machine;
mod number_set;
mod numbers;
mod reply_frames;
mod reply_rings;
mod turn;

pub use command::OpenCommand;
pub use handle_phases::HandlePhases;
pub use identifiers::Identifiers;
pub use lists::HostLists;
pub use machine::Machine;
pub use number_set::NumberSet;
pub use numbers::NumberMap;
pub use reply_frames::{REPLY_FRAMES, ReplyFrames, frame_address, frame_of, is_frame_address};
pub use reply_rings::ReplyRings;
pub use turn::{DoorTurn, last_step, take_turn};
