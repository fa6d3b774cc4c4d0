//! The host's device handles: discovery, and the removal handshake of mpt3sas.
#![tactic(auto)]

mod handles;
mod law;
mod phase;

pub use handles::{FIRST_HANDLE, Handles, LAST_HANDLE, NotAbsent};
pub use law::ready_is_removed_by_handshake;
pub use mpi_names::{Address, Handle, Smid};
pub use phase::Phase;

#[cfg(test)]
mod tests;
