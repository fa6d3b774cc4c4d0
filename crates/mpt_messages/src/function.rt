//! The functions of messages, and by which way a request of each travels.
ghost use Rattle.std.specs.Prelude.{◌≡◌};
ghost use Rattle.mpt_messages.specs.Function.{function_of, kind_of};

use mpi_names::{
    MPI2_FUNCTION_CONFIG, MPI2_FUNCTION_EVENT_ACK, MPI2_FUNCTION_EVENT_NOTIFICATION,
    MPI2_FUNCTION_IOC_FACTS, MPI2_FUNCTION_IOC_INIT, MPI2_FUNCTION_PORT_ENABLE,
    MPI2_FUNCTION_PORT_FACTS, MPI2_FUNCTION_SAS_IO_UNIT_CONTROL, MPI2_FUNCTION_SCSI_IO_REQUEST,
    MPI2_FUNCTION_SCSI_TASK_MGMT,
};

/// By which way a request travels.
#[derive(Clone, Copy, Debug, PartialEq, Eq)]
pub enum Kind {
    /// A SCSI IO request descriptor.
    ScsiIo,
    /// A high priority request descriptor.
    HighPriority,
    /// A default request descriptor.
    Default,
    /// The doorbell's handshake.
    Handshake,
}

/// What a message is about, by the byte at 03 (mpi2.h, MPI2_FUNCTION_...).
#[derive(Clone, Copy, Debug, PartialEq, Eq)]
pub enum Function {
    /// 00: SCSI IO (MPI2_FUNCTION_SCSI_IO_REQUEST).
    ScsiIo,
    /// 01: Task management (MPI2_FUNCTION_SCSI_TASK_MGMT).
    TaskManagement,
    /// 02: IOC Init (MPI2_FUNCTION_IOC_INIT).
    IocInit,
    /// 03: IOC Facts (MPI2_FUNCTION_IOC_FACTS).
    IocFacts,
    /// 04: Configuration (MPI2_FUNCTION_CONFIG).
    Config,
    /// 05: Port Facts (MPI2_FUNCTION_PORT_FACTS).
    PortFacts,
    /// 06: Port Enable (MPI2_FUNCTION_PORT_ENABLE).
    PortEnable,
    /// 07: Event Notification (MPI2_FUNCTION_EVENT_NOTIFICATION).
    EventNotification,
    /// 08: Event Ack (MPI2_FUNCTION_EVENT_ACK).
    EventAck,
    /// 1b: SAS IO unit control (MPI2_FUNCTION_SAS_IO_UNIT_CONTROL).
    UnitControl,
}

impl Function {
    /// The function of this byte, or none where the profile has none.
    pub fn from_byte(byte: u8) -> Option<Function>
        ensures { result ≡ function_of byte }
    {
        match byte {
            MPI2_FUNCTION_SCSI_IO_REQUEST => Some(Function::ScsiIo),
            MPI2_FUNCTION_SCSI_TASK_MGMT => Some(Function::TaskManagement),
            MPI2_FUNCTION_IOC_INIT => Some(Function::IocInit),
            MPI2_FUNCTION_IOC_FACTS => Some(Function::IocFacts),
            MPI2_FUNCTION_CONFIG => Some(Function::Config),
            MPI2_FUNCTION_PORT_FACTS => Some(Function::PortFacts),
            MPI2_FUNCTION_PORT_ENABLE => Some(Function::PortEnable),
            MPI2_FUNCTION_EVENT_NOTIFICATION => Some(Function::EventNotification),
            MPI2_FUNCTION_EVENT_ACK => Some(Function::EventAck),
            MPI2_FUNCTION_SAS_IO_UNIT_CONTROL => Some(Function::UnitControl),
            _ => None,
        }
    }

    /// By which way a request of this function travels.
    pub fn kind(self) -> Kind
        ensures { result ≡ kind_of self }
    {
        match self {
            Function::ScsiIo => Kind::ScsiIo,
            Function::TaskManagement => Kind::HighPriority,
            Function::IocInit | Function::IocFacts | Function::PortFacts => Kind::Handshake,
            Function::Config
            | Function::PortEnable
            | Function::EventNotification
            | Function::EventAck
            | Function::UnitControl => Kind::Default,
        }
    }
}
