//! The TaskType of a task management request (mpi2_init.h).

/// Ends the task that TaskMID names.
pub const MPI2_SCSITASKMGMT_TASKTYPE_ABORT_TASK: u8 = 0x01;

/// Ends every task of the target.
pub const MPI2_SCSITASKMGMT_TASKTYPE_TARGET_RESET: u8 = 0x03;
