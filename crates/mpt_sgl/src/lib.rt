//! Scatter lists.
#![tactic(auto)]

mod area;
mod chained;
mod element;
mod fault;
mod laws;
mod list;
mod listing;
mod reading;
#[cfg(test)]
mod tests;
mod writing;

pub use chained::{ChainFrame, Chained, Frames};
pub use fault::SglFault;
pub use laws::spellings_are_one_to_one;
pub use list::{List, Piece, Pieces};
pub use listing::{fault_text, list_text};
pub use reading::read_list;
pub use writing::{frames_needed, write_list};

/// There was no memory left.
pub use std::alloc::AllocError as OutOfMemory;
