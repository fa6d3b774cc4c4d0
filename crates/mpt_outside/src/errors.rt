//! What can go wrong outside.

/// A source or a sink failed. Its count of faults rose in that call.
#[derive(Clone, Copy, Debug, PartialEq, Eq)]
pub struct Failed;

/// An allocation failed. The call that answers it has changed nothing. All crates of the repository
/// answer it by this one type, std's.
pub use std::alloc::AllocError as OutOfMemory;
