//! The functions of replies.
ghost use Rattle.std.specs.Prelude.{◌≡◌};
ghost use Rattle.mpt_messages.specs.Function.{byte_of};
ghost use Rattle.mpt_rules.specs.Host.Strange.{function_asked, function_due};

use mpi_names::{
    MPI2_FUNCTION_CONFIG, MPI2_FUNCTION_EVENT_ACK, MPI2_FUNCTION_EVENT_NOTIFICATION,
    MPI2_FUNCTION_IOC_FACTS, MPI2_FUNCTION_IOC_INIT, MPI2_FUNCTION_PORT_ENABLE,
    MPI2_FUNCTION_PORT_FACTS, MPI2_FUNCTION_SAS_IO_UNIT_CONTROL, MPI2_FUNCTION_SCSI_IO_REQUEST,
    MPI2_FUNCTION_SCSI_TASK_MGMT,
};
use mpt_messages::Function;
use mpt_rules::Request;

/// The byte of a function.
pub(crate) fn byte_of(function: Function) -> u8
    ensures { result ≡ byte_of function }
{
    match function {
        Function::ScsiIo => MPI2_FUNCTION_SCSI_IO_REQUEST,
        Function::TaskManagement => MPI2_FUNCTION_SCSI_TASK_MGMT,
        Function::IocInit => MPI2_FUNCTION_IOC_INIT,
        Function::IocFacts => MPI2_FUNCTION_IOC_FACTS,
        Function::Config => MPI2_FUNCTION_CONFIG,
        Function::PortFacts => MPI2_FUNCTION_PORT_FACTS,
        Function::PortEnable => MPI2_FUNCTION_PORT_ENABLE,
        Function::EventNotification => MPI2_FUNCTION_EVENT_NOTIFICATION,
        Function::EventAck => MPI2_FUNCTION_EVENT_ACK,
        Function::UnitControl => MPI2_FUNCTION_SAS_IO_UNIT_CONTROL,
    }
}

/// The function that a reply has to have: that of the request, and without one that of an event.
pub(crate) fn function_due(asked: Option<Request>) -> Function
    ensures { result ≡ function_due asked }
{
    match asked {
        Some(request) => function_asked(request),
        None => Function::EventNotification,
    }
}

// The function of a request.
fn function_asked(request: Request) -> Function
    ensures { result ≡ function_asked request }
{
    match request {
        Request::Command { .. } => Function::ScsiIo,
        Request::Abort { .. } | Request::TargetReset { .. } | Request::Leave { .. } => {
            Function::TaskManagement
        }
        Request::Page { .. } => Function::Config,
        Request::Remove { .. } => Function::UnitControl,
        Request::Ack { .. } => Function::EventAck,
        Request::Notification => Function::EventNotification,
        Request::PortEnable => Function::PortEnable,
    }
}
