//! What passes between the controller and the fabric behind it.
ghost use Rattle.mpt_c_calls.specs.Pumping.{GivesBack, GivesOut};

use ioc_core::Ioc;
use mpt_c_messages::CallCode;
use sas_fabric::Fabric;
use std::alloc::Global;

/// The fabric takes what the controller puts next on the lane out. Nothing where there is nothing.
pub fn give_out(alloc: Global, ioc: &mut Ioc, fabric: &mut Fabric) -> CallCode
    ensures { GivesOut ioc.old ioc.new fabric.old fabric.new result }
{
    let Some(front) = ioc.front_out() else {
        return CallCode::Nothing;
    };
    let Ok(item) = front.copy(alloc) else {
        return CallCode::NoMemory;
    };
    match fabric.take(item) {
        Err(_) => CallCode::NoMemory,
        Ok(()) => {
            let _put = ioc.sent_out();
            CallCode::Ok
        }
    }
}

/// The controller takes what the fabric puts next on the lane back. Nothing where there is nothing.
pub fn give_back(alloc: Global, fabric: &mut Fabric, ioc: &mut Ioc) -> CallCode
    ensures { GivesBack ioc.old ioc.new fabric.old fabric.new result }
{
    let Some(front) = fabric.front_back() else {
        return CallCode::Nothing;
    };
    let Ok(item) = front.copy(alloc) else {
        return CallCode::NoMemory;
    };
    match ioc.take_back(item) {
        Err(_) => CallCode::NoMemory,
        Ok(()) => {
            let _put = fabric.sent_back();
            CallCode::Ok
        }
    }
}
