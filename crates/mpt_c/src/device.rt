//! The device end: a controller behind its registers and rings.
ghost use Rattle.std.specs.Prelude.{◌≡◌, None, length, nat_le};
ghost use Rattle.mpt_trace.specs.declared.item.Down.TheVariants as down;
ghost use Rattle.mpt_rules.specs.Ioc.Steps.{steps_high, steps_normal};
ghost use Rattle.mpt_c_calls.specs.Down.{TakesDown, TakesPost};
ghost use Rattle.mpt_c_calls.specs.Making.{IsNewIoc, MakesNoIoc};
ghost use Rattle.mpt_c_calls.specs.Steps.{Steps};
ghost use Rattle.mpt_c_calls.specs.Up.{FillsUp, PutsUp};
ghost use Rattle.mpt_c.specs.Answers.{Answers};
ghost use Rattle.mpt_c.specs.OnHandles.{Holds, OnHandle};

use crate::ioc_handle::IocHandle;
use mpt_c_calls::{
    make_ioc, put_up, step_high, step_normal, take_post, take_read, take_return, take_write,
};
use mpt_c_messages::{CallCode, UpHead};
use std::alloc::Global;

/// A new controller (mpt.h, `mpt_ioc_new`).
#[unsafe(no_mangle)]
pub extern "C" fn mpt_raw_ioc_new(
    alloc: Global,
    handle: &mut IocHandle,
    phys: &[u8],
    queues: u8,
) -> u32
    ensures { Answers result (λ code. Holds handle.old.value handle.new.value (IsNewIoc phys.now queues) (MakesNoIoc phys.now queues) code) }
{
    new_in(alloc, handle, phys, queues).number()
}

fn new_in(alloc: Global, handle: &mut IocHandle, phys: &[u8], queues: u8) -> CallCode
    ensures { Holds handle.old.value handle.new.value (IsNewIoc phys.now queues) (MakesNoIoc phys.now queues) result }
{
    match make_ioc(alloc, phys, queues) {
        Err(code) => code,
        Ok(ioc) => match Box::new(alloc, ioc) {
            Err(_) => CallCode::NoMemory,
            Ok(boxed) => {
                handle.put(alloc, boxed);
                CallCode::Ok
            }
        },
    }
}

/// Frees a controller (mpt.h, `mpt_ioc_free`).
#[unsafe(no_mangle)]
pub extern "C" fn mpt_raw_ioc_free(alloc: Global, handle: &mut IocHandle)
    ensures { handle.new.value ≡ None }
{
    drop(handle.take(alloc));
}

/// A write to a register (mpt.h, `mpt_ioc_write`).
#[unsafe(no_mangle)]
pub extern "C" fn mpt_raw_ioc_write(
    alloc: Global,
    handle: &mut IocHandle,
    reg: u16,
    value: u32,
) -> u32
    ensures { OnHandle handle.old.value handle.new.value result
        (λ old new code. TakesDown old new (down.Write reg value) code) }
{
    let Some(mut ioc) = handle.take(alloc) else {
        return CallCode::Empty.number();
    };
    let code = take_write(&mut ioc, reg, value);
    handle.put(alloc, ioc);
    code.number()
}

/// A read of a register (mpt.h, `mpt_ioc_read`).
#[unsafe(no_mangle)]
pub extern "C" fn mpt_raw_ioc_read(alloc: Global, handle: &mut IocHandle, reg: u16) -> u32
    ensures { OnHandle handle.old.value handle.new.value result
        (λ old new code. TakesDown old new (down.Read reg) code) }
{
    let Some(mut ioc) = handle.take(alloc) else {
        return CallCode::Empty.number();
    };
    let code = take_read(&mut ioc, reg);
    handle.put(alloc, ioc);
    code.number()
}

/// A post (mpt.h, `mpt_ioc_post`).
#[unsafe(no_mangle)]
pub extern "C" fn mpt_raw_ioc_post(
    alloc: Global,
    handle: &mut IocHandle,
    descriptor: u64,
    frame: &[u8; 128],
    payload: &[u8],
) -> u32
    ensures { OnHandle handle.old.value handle.new.value result
        (λ old new code. TakesPost (nat_le (length payload.now) 4096) old new (down.Post descriptor frame.now payload.now) code) }
{
    let Some(mut ioc) = handle.take(alloc) else {
        return CallCode::Empty.number();
    };
    let code = take_post(alloc, &mut ioc, descriptor, frame, payload);
    handle.put(alloc, ioc);
    code.number()
}

/// A reply frame that is given back (mpt.h, `mpt_ioc_return`).
#[unsafe(no_mangle)]
pub extern "C" fn mpt_raw_ioc_return(
    alloc: Global,
    handle: &mut IocHandle,
    address: u32,
    index: u16,
) -> u32
    ensures { OnHandle handle.old.value handle.new.value result
        (λ old new code. TakesDown old new (down.Return address index) code) }
{
    let Some(mut ioc) = handle.take(alloc) else {
        return CallCode::Empty.number();
    };
    let code = take_return(&mut ioc, address, index);
    handle.put(alloc, ioc);
    code.number()
}

/// A work step on the high queue (mpt.h, `mpt_ioc_step_high`).
#[unsafe(no_mangle)]
pub extern "C" fn mpt_raw_ioc_step_high(alloc: Global, handle: &mut IocHandle) -> u32
    ensures { OnHandle handle.old.value handle.new.value result
        (λ old new code. Steps old new (steps_high old.part) code) }
{
    let Some(mut ioc) = handle.take(alloc) else {
        return CallCode::Empty.number();
    };
    let code = step_high(&mut ioc);
    handle.put(alloc, ioc);
    code.number()
}

/// A work step on the normal queue (mpt.h, `mpt_ioc_step`).
#[unsafe(no_mangle)]
pub extern "C" fn mpt_raw_ioc_step(alloc: Global, handle: &mut IocHandle) -> u32
    ensures { OnHandle handle.old.value handle.new.value result
        (λ old new code. Steps old new (steps_normal old.part) code) }
{
    let Some(mut ioc) = handle.take(alloc) else {
        return CallCode::Empty.number();
    };
    let code = step_normal(&mut ioc);
    handle.put(alloc, ioc);
    code.number()
}

/// What the controller puts on a reply queue (mpt.h, `mpt_ioc_up`).
#[unsafe(no_mangle)]
pub extern "C" fn mpt_raw_ioc_up(
    alloc: Global,
    handle: &mut IocHandle,
    queue: u8,
    head: &mut UpHead,
    frame: &mut [u8; 128],
    page: &mut [u8],
    sense: &mut [u8],
) -> u32
    ensures held { OnHandle handle.old.value handle.new.value result (λ old new code. PutsUp old new queue
        (FillsUp head.old head.new frame.old frame.new page.old page.new sense.old sense.new) code) }
    ensures empty { handle.old.value ≡ None → FillsUp head.old head.new frame.old frame.new page.old page.new sense.old sense.new None }
{
    let Some(mut ioc) = handle.take(alloc) else {
        return CallCode::Empty.number();
    };
    let code = put_up(&mut ioc, queue, head, frame, page, sense);
    handle.put(alloc, ioc);
    code.number()
}
