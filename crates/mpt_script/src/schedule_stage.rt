//! The place in a schedule.

/// Which part of a schedule is being read.
#[derive(Clone, Copy)]
pub(crate) enum ScheduleStage {
    /// No line has said anything.
    First,
    /// Disks and expanders are declared.
    Declarations,
    /// The inputs and the choices have begun.
    Steps,
}
