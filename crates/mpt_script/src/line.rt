//! The lines of a schedule.
use mpt_trace::{Choice, DiskSpec, Input};

/// A line of a schedule.
#[derive(Drop)]
pub enum Line {
    /// How many reply post queues there are, 1 to 8. It is the first line.
    Queues(u8),
    /// A disk. Disks and expanders are declared before all other lines but `Queues`.
    Disk(DiskSpec),
    /// The next expander, by the number of its phys, 1 to 22.
    Expander {
        /// How many phys it has.
        phys: u8,
    },
    /// An input.
    Input(Input),
    /// A choice, 1 to 64 times.
    Choice {
        /// The choice.
        choice: Choice,
        /// How many times.
        count: u8,
    },
    /// Rounds of all choices until the system is quiet.
    Drain,
}
