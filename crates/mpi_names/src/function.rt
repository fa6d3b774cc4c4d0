//! The Function of a message or of a write to the Doorbell (mpi2.h).

/// A SCSI IO.
pub const MPI2_FUNCTION_SCSI_IO_REQUEST: u8 = 0x00;

/// Task management.
pub const MPI2_FUNCTION_SCSI_TASK_MGMT: u8 = 0x01;

/// IOC Init.
pub const MPI2_FUNCTION_IOC_INIT: u8 = 0x02;

/// IOC Facts.
pub const MPI2_FUNCTION_IOC_FACTS: u8 = 0x03;

/// A configuration request.
pub const MPI2_FUNCTION_CONFIG: u8 = 0x04;

/// Port Facts.
pub const MPI2_FUNCTION_PORT_FACTS: u8 = 0x05;

/// Port Enable.
pub const MPI2_FUNCTION_PORT_ENABLE: u8 = 0x06;

/// Event notification.
pub const MPI2_FUNCTION_EVENT_NOTIFICATION: u8 = 0x07;

/// The acknowledgement of an event.
pub const MPI2_FUNCTION_EVENT_ACK: u8 = 0x08;

/// SAS IO unit control.
pub const MPI2_FUNCTION_SAS_IO_UNIT_CONTROL: u8 = 0x1b;

/// A message unit reset, by the Doorbell.
pub const MPI2_FUNCTION_IOC_MESSAGE_UNIT_RESET: u8 = 0x40;

/// A message that follows word by word, by the Doorbell.
pub const MPI2_FUNCTION_HANDSHAKE: u8 = 0x42;
