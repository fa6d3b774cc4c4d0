//! What is asked of the host from outside, but for commands.
ghost use Rattle.std.specs.Prelude.{◌≡◌};
ghost use Rattle.mpt_rules.specs.Host.Takes.{diag_resets, host_aborts, host_resets_target, starts, unit_resets};
ghost use Rattle.host_core.specs.Faults.{refusal_of};
ghost use Rattle.mpt_c_hosts.specs.Asking.{Begins, BeginsAs, Refuses, number_of_refusal};

use host_core::{Host, HostFault};
use mpt_c_messages::CallCode;
use mpt_trace::Refusal;

/// Begins to bring the controller up.
pub fn start(host: &mut Host, cause: &mut u32) -> CallCode
    ensures { Begins host.old host.new cause.old cause.new (starts host.old.host) result }
{
    match host.start() {
        Ok(()) => CallCode::Ok,
        Err(fault) => refuse(fault, cause),
    }
}

/// Begins to reset the controller by its diagnostic register.
pub fn diag_reset(host: &mut Host, cause: &mut u32) -> CallCode
    ensures { Begins host.old host.new cause.old cause.new (diag_resets host.old.host) result }
{
    match host.diag_reset() {
        Ok(()) => CallCode::Ok,
        Err(fault) => refuse(fault, cause),
    }
}

/// Begins to reset the controller's message unit.
pub fn unit_reset(host: &mut Host, cause: &mut u32) -> CallCode
    ensures { Begins host.old host.new cause.old cause.new (unit_resets host.old.host) result }
{
    match host.unit_reset() {
        Ok(()) => CallCode::Ok,
        Err(fault) => refuse(fault, cause),
    }
}

/// Asks that the submission of a number is aborted, and answers the identifier of what asks it.
pub fn abort(host: &mut Host, number: u32, smid: &mut u16, cause: &mut u32) -> CallCode
    ensures { BeginsAs host.old host.new smid.old smid.new cause.old cause.new (host_aborts host.old.host number) result }
{
    match host.abort(number) {
        Ok(given) => {
            *smid = given;
            CallCode::Ok
        }
        Err(fault) => refuse(fault, cause),
    }
}

/// Asks that the disk of an address is reset, and answers the identifier of what asks it.
pub fn target_reset(host: &mut Host, address: u64, smid: &mut u16, cause: &mut u32) -> CallCode
    ensures { BeginsAs host.old host.new smid.old smid.new cause.old cause.new (host_resets_target host.old.host address) result }
{
    match host.target_reset(address) {
        Ok(given) => {
            *smid = given;
            CallCode::Ok
        }
        Err(fault) => refuse(fault, cause),
    }
}

// The code of a call that the host refuses, with the cause.
pub(crate) fn refuse(fault: HostFault, cause: &mut u32) -> CallCode
    ensures { Refuses (refusal_of fault) cause.old cause.new result }
{
    match fault.refusal() {
        None => CallCode::NoMemory,
        Some(refusal) => {
            *cause = refusal_number(refusal);
            CallCode::Refused
        }
    }
}

// The number of a cause (mpt.h, `mpt_refusal`).
fn refusal_number(refusal: Refusal) -> u32
    ensures { result ≡ number_of_refusal refusal }
{
    match refusal {
        Refusal::NumberUsed => 1,
        Refusal::NotOperational => 2,
        Refusal::NoDevice => 3,
        Refusal::BadLength => 4,
        Refusal::NoIdentifier => 5,
        Refusal::NotOpen => 6,
        Refusal::AbortOpen => 7,
        Refusal::AlreadyStarted => 8,
        Refusal::NotStarted => 9,
        Refusal::AlreadyResetting => 10,
        Refusal::Occupied => 11,
        Refusal::AlreadyPlugged => 12,
        Refusal::PlugsSpent => 13,
        Refusal::NotPlugged => 14,
    }
}
