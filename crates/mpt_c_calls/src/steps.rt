//! The controller's work steps.
ghost use Rattle.mpt_rules.specs.Ioc.Steps.{steps_high, steps_normal};
ghost use Rattle.mpt_c_calls.specs.Steps.{Steps};

use ioc_core::Ioc;
use mpt_c_messages::CallCode;

/// Processes the front of the high queue. Nothing where the queue is empty.
pub fn step_high(ioc: &mut Ioc) -> CallCode
    ensures { Steps ioc.old ioc.new (steps_high ioc.old.part) result }
{
    match ioc.step_high() {
        Ok(true) => CallCode::Ok,
        Ok(false) => CallCode::Nothing,
        Err(_) => CallCode::NoMemory,
    }
}

/// Processes the front of the normal queue. Nothing where the queue is empty.
pub fn step_normal(ioc: &mut Ioc) -> CallCode
    ensures { Steps ioc.old ioc.new (steps_normal ioc.old.part) result }
{
    match ioc.step_normal() {
        Ok(true) => CallCode::Ok,
        Ok(false) => CallCode::Nothing,
        Err(_) => CallCode::NoMemory,
    }
}
