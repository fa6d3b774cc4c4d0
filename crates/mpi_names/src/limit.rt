//! The limits of this profile.

/// The most bytes of data that a command moves.
pub const MAX_TRANSFER: usize = 4096;

/// The most lines of submitters that a plan has.
pub const MAX_PLAN_LINES: u32 = 4096;

/// The most times that a disk is plugged in.
pub const MAX_PLUGS: u32 = 100_000;
