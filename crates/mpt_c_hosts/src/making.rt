//! A host, as C asks for it.
ghost use Rattle.std.specs.Prelude.{◌≡◌, IfErr, IfOk};
ghost use Rattle.mpt_c_hosts.specs.Making.{IsNewHost, IsState, MakesNoHost, number_of_state};

use host_core::Host;
use mpt_c_messages::CallCode;
use mpt_trace::HostState;
use std::alloc::Global;

/// A host that is off, with so many reply queues.
///
/// # Errors
/// NoSuch exactly where there are not from 1 to 8 queues; NoMemory.
pub fn make_host(alloc: Global, queues: u8) -> Result<Host, CallCode>
    ensures made { IfOk result (IsNewHost queues) }
    ensures refused { IfErr result (MakesNoHost queues) }
{
    if queues < 1 || queues > 8 {
        return Err(CallCode::NoSuch);
    }
    match Host::with_queues(alloc, queues) {
        Ok(host) => Ok(host),
        Err(_) => Err(CallCode::NoMemory),
    }
}

/// How far the host has brought the controller up (mpt.h, `mpt_host_state`).
pub fn state(host: &Host, number: &mut u32) -> CallCode
    ensures { IsState host.now number.new result }
{
    *number = match host.state() {
        HostState::Off => 0,
        HostState::Starting => 1,
        HostState::Up => 2,
        HostState::Resetting => 3,
    };
    CallCode::Ok
}
