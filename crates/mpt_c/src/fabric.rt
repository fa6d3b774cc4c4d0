//! The fabric: a stand-in for targets.
ghost use Rattle.std.specs.Prelude.{◌≡◌, None};
ghost use Rattle.mpt_rules.specs.Fabric.Tasks.{oldest, runs};
ghost use Rattle.mpt_rules.specs.Fabric.Calls.{announces, fabric_plugs, fabric_unplugs};
ghost use Rattle.mpt_c_calls.specs.Making.{IsNewFabric, MakesNoFabric};
ghost use Rattle.mpt_c_calls.specs.Plugging.{Announces, IsOldest, Plugs, Runs};
ghost use Rattle.mpt_c_calls.specs.Pumping.{GivesBack, GivesOut};
ghost use Rattle.mpt_c.specs.Answers.{Answers};
ghost use Rattle.mpt_c.specs.OnHandles.{Holds, OnBoth, OnHandle};

use crate::fabric_handle::FabricHandle;
use crate::ioc_handle::IocHandle;
use mpt_c_calls::{
    DiskWords, announce, give_back, give_out, make_fabric, oldest_tag, plug, run, unplug,
};
use mpt_c_messages::CallCode;
use std::alloc::Global;

/// A new fabric (mpt.h, `mpt_fabric_new`).
#[unsafe(no_mangle)]
pub extern "C" fn mpt_raw_fabric_new(
    alloc: Global,
    handle: &mut FabricHandle,
    disks: &[DiskWords],
    phys: &[u8],
) -> u32
    ensures { Answers result (λ code. Holds handle.old.value handle.new.value (IsNewFabric disks.now phys.now) MakesNoFabric code) }
{
    new_in(alloc, handle, disks, phys).number()
}

fn new_in(alloc: Global, handle: &mut FabricHandle, disks: &[DiskWords], phys: &[u8]) -> CallCode
    ensures { Holds handle.old.value handle.new.value (IsNewFabric disks.now phys.now) MakesNoFabric result }
{
    match make_fabric(alloc, disks, phys) {
        Err(code) => code,
        Ok(fabric) => match Box::new(alloc, fabric) {
            Err(_) => CallCode::NoMemory,
            Ok(boxed) => {
                handle.put(alloc, boxed);
                CallCode::Ok
            }
        },
    }
}

/// Frees a fabric (mpt.h, `mpt_fabric_free`).
#[unsafe(no_mangle)]
pub extern "C" fn mpt_raw_fabric_free(alloc: Global, handle: &mut FabricHandle)
    ensures { handle.new.value ≡ None }
{
    drop(handle.take(alloc));
}

/// Plugs a disk (mpt.h, `mpt_fabric_plug`).
#[unsafe(no_mangle)]
pub extern "C" fn mpt_raw_fabric_plug(
    alloc: Global,
    handle: &mut FabricHandle,
    address: u64,
    expander: u8,
    phy: u8,
) -> u32
    ensures { OnHandle handle.old.value handle.new.value result
        (λ old new code. Plugs old new (fabric_plugs old address expander phy) code) }
{
    let Some(mut fabric) = handle.take(alloc) else {
        return CallCode::Empty.number();
    };
    let code = plug(&mut fabric, address, expander, phy);
    handle.put(alloc, fabric);
    code.number()
}

/// Unplugs a disk (mpt.h, `mpt_fabric_unplug`).
#[unsafe(no_mangle)]
pub extern "C" fn mpt_raw_fabric_unplug(
    alloc: Global,
    handle: &mut FabricHandle,
    address: u64,
) -> u32
    ensures { OnHandle handle.old.value handle.new.value result
        (λ old new code. Plugs old new (fabric_unplugs old address) code) }
{
    let Some(mut fabric) = handle.take(alloc) else {
        return CallCode::Empty.number();
    };
    let code = unplug(&mut fabric, address);
    handle.put(alloc, fabric);
    code.number()
}

/// The tag of the oldest task (mpt.h, `mpt_fabric_oldest`).
#[unsafe(no_mangle)]
pub extern "C" fn mpt_raw_fabric_oldest(
    alloc: Global,
    handle: &mut FabricHandle,
    tag: &mut u16,
) -> u32
    ensures held { OnHandle handle.old.value handle.new.value result
        (λ old new code. (new ≡ old) × IsOldest (oldest old) tag.old tag.new code) }
    ensures empty { handle.old.value ≡ None → tag.new ≡ tag.old }
{
    let Some(fabric) = handle.take(alloc) else {
        return CallCode::Empty.number();
    };
    let code = oldest_tag(&fabric, tag);
    handle.put(alloc, fabric);
    code.number()
}

/// Carries out a task (mpt.h, `mpt_fabric_run`).
#[unsafe(no_mangle)]
pub extern "C" fn mpt_raw_fabric_run(
    alloc: Global,
    handle: &mut FabricHandle,
    tag: u16,
    address: &mut u64,
) -> u32
    ensures held { OnHandle handle.old.value handle.new.value result
        (λ old new code. Runs old new (runs old tag) address.old address.new code) }
    ensures empty { handle.old.value ≡ None → address.new ≡ address.old }
{
    let Some(mut fabric) = handle.take(alloc) else {
        return CallCode::Empty.number();
    };
    let code = run(&mut fabric, tag, address);
    handle.put(alloc, fabric);
    code.number()
}

/// Tells a notice (mpt.h, `mpt_fabric_announce`).
#[unsafe(no_mangle)]
pub extern "C" fn mpt_raw_fabric_announce(alloc: Global, handle: &mut FabricHandle) -> u32
    ensures { OnHandle handle.old.value handle.new.value result
        (λ old new code. Announces old new (announces old) code) }
{
    let Some(mut fabric) = handle.take(alloc) else {
        return CallCode::Empty.number();
    };
    let code = announce(&mut fabric);
    handle.put(alloc, fabric);
    code.number()
}

/// The fabric takes what the controller puts (mpt.h, `mpt_fabric_take`).
#[unsafe(no_mangle)]
pub extern "C" fn mpt_raw_fabric_take(
    alloc: Global,
    fabric_handle: &mut FabricHandle,
    ioc_handle: &mut IocHandle,
) -> u32
    ensures { OnBoth ioc_handle.old.value ioc_handle.new.value fabric_handle.old.value fabric_handle.new.value result GivesOut }
{
    let Some(mut ioc) = ioc_handle.take(alloc) else {
        return CallCode::Empty.number();
    };
    let Some(mut fabric) = fabric_handle.take(alloc) else {
        ioc_handle.put(alloc, ioc);
        return CallCode::Empty.number();
    };
    let code = give_out(alloc, &mut ioc, &mut fabric);
    ioc_handle.put(alloc, ioc);
    fabric_handle.put(alloc, fabric);
    code.number()
}

/// The controller takes what the fabric puts (mpt.h, `mpt_fabric_give`).
#[unsafe(no_mangle)]
pub extern "C" fn mpt_raw_fabric_give(
    alloc: Global,
    fabric_handle: &mut FabricHandle,
    ioc_handle: &mut IocHandle,
) -> u32
    ensures { OnBoth ioc_handle.old.value ioc_handle.new.value fabric_handle.old.value fabric_handle.new.value result GivesBack }
{
    let Some(mut ioc) = ioc_handle.take(alloc) else {
        return CallCode::Empty.number();
    };
    let Some(mut fabric) = fabric_handle.take(alloc) else {
        ioc_handle.put(alloc, ioc);
        return CallCode::Empty.number();
    };
    let code = give_back(alloc, &mut fabric, &mut ioc);
    ioc_handle.put(alloc, ioc);
    fabric_handle.put(alloc, fabric);
    code.number()
}
