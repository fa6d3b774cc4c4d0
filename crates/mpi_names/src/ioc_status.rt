//! IOCStatus (mpi2.h).

/// The bits without the flag for log info.
pub const MPI2_IOCSTATUS_MASK: u16 = 0x7fff;

/// The request was done.
pub const MPI2_IOCSTATUS_SUCCESS: u16 = 0x0000;

/// The Function isn't one that the controller has.
pub const MPI2_IOCSTATUS_INVALID_FUNCTION: u16 = 0x0001;

/// The controller can't take the request now.
pub const MPI2_IOCSTATUS_BUSY: u16 = 0x0002;

/// The scatter gather list isn't valid.
pub const MPI2_IOCSTATUS_INVALID_SGL: u16 = 0x0003;

/// A field isn't valid.
pub const MPI2_IOCSTATUS_INVALID_FIELD: u16 = 0x0007;

/// The request isn't valid in the controller's state.
pub const MPI2_IOCSTATUS_INVALID_STATE: u16 = 0x0008;

/// There is no such configuration action.
pub const MPI2_IOCSTATUS_CONFIG_INVALID_ACTION: u16 = 0x0020;

/// There is no such type of configuration page.
pub const MPI2_IOCSTATUS_CONFIG_INVALID_TYPE: u16 = 0x0021;

/// There is no such configuration page.
pub const MPI2_IOCSTATUS_CONFIG_INVALID_PAGE: u16 = 0x0022;

/// The device handle names no device.
pub const MPI2_IOCSTATUS_SCSI_INVALID_DEVHANDLE: u16 = 0x0042;

/// The device isn't there any more.
pub const MPI2_IOCSTATUS_SCSI_DEVICE_NOT_THERE: u16 = 0x0043;

/// Fewer bytes were moved than the request's DataLength.
pub const MPI2_IOCSTATUS_SCSI_DATA_UNDERRUN: u16 = 0x0045;

/// A task management request ended the task.
pub const MPI2_IOCSTATUS_SCSI_TASK_TERMINATED: u16 = 0x0048;

/// The task management request failed.
pub const MPI2_IOCSTATUS_SCSI_TASK_MGMT_FAILED: u16 = 0x004a;
