//! The driver end: a host that brings the controller up, submits commands and takes what comes up.
ghost use Rattle.std.specs.Prelude.{◌≡◌, None};
ghost use Rattle.mpt_rules.specs.Host.Takes.{diag_resets, host_aborts, host_resets_target, starts, unit_resets};
ghost use Rattle.mpt_c_hosts.specs.Asking.{Begins, BeginsAs};
ghost use Rattle.mpt_c_hosts.specs.Down.{FillsDown, PutsDown};
ghost use Rattle.mpt_c_hosts.specs.Making.{IsNewHost, IsState, MakesNoHost};
ghost use Rattle.mpt_c_hosts.specs.Submitting.{Submits, command_of};
ghost use Rattle.mpt_c_hosts.specs.Told.{FillsTold, Tells};
ghost use Rattle.mpt_c_hosts.specs.Up.{Hears, up_on};
ghost use Rattle.mpt_c.specs.Answers.{Answers};
ghost use Rattle.mpt_c.specs.OnHandles.{Holds, OnHandle};

use crate::host_handle::HostHandle;
use mpt_c_hosts::{
    DownHead, StrangeWords, SubmitHead, ToldHead, abort, diag_reset, hear_up, make_host, put_down,
    start, state, submit, target_reset, tell, unit_reset,
};
use mpt_c_messages::{CallCode, UpHead};
use std::alloc::Global;

/// A new host (mpt.h, `mpt_host_new`).
#[unsafe(no_mangle)]
pub extern "C" fn mpt_raw_host_new(alloc: Global, handle: &mut HostHandle, queues: u8) -> u32
    ensures { Answers result (λ code. Holds handle.old.value handle.new.value (IsNewHost queues) (MakesNoHost queues) code) }
{
    new_in(alloc, handle, queues).number()
}

fn new_in(alloc: Global, handle: &mut HostHandle, queues: u8) -> CallCode
    ensures { Holds handle.old.value handle.new.value (IsNewHost queues) (MakesNoHost queues) result }
{
    match make_host(alloc, queues) {
        Err(code) => code,
        Ok(host) => match Box::new(alloc, host) {
            Err(_) => CallCode::NoMemory,
            Ok(boxed) => {
                handle.put(alloc, boxed);
                CallCode::Ok
            }
        },
    }
}

/// Frees a host (mpt.h, `mpt_host_free`).
#[unsafe(no_mangle)]
pub extern "C" fn mpt_raw_host_free(alloc: Global, handle: &mut HostHandle)
    ensures { handle.new.value ≡ None }
{
    drop(handle.take(alloc));
}

/// How far the host has brought the controller up (mpt.h, `mpt_host_how_far`).
#[unsafe(no_mangle)]
pub extern "C" fn mpt_raw_host_state(
    alloc: Global,
    handle: &mut HostHandle,
    number: &mut u32,
) -> u32
    ensures held { OnHandle handle.old.value handle.new.value result
        (λ old new code. (new ≡ old) × IsState old number.new code) }
    ensures empty { handle.old.value ≡ None → number.new ≡ number.old }
{
    let Some(host) = handle.take(alloc) else {
        return CallCode::Empty.number();
    };
    let code = state(&host, number);
    handle.put(alloc, host);
    code.number()
}

/// Begins to bring the controller up (mpt.h, `mpt_host_start`).
#[unsafe(no_mangle)]
pub extern "C" fn mpt_raw_host_start(alloc: Global, handle: &mut HostHandle, cause: &mut u32) -> u32
    ensures held { OnHandle handle.old.value handle.new.value result
        (λ old new code. Begins old new cause.old cause.new (starts old.host) code) }
    ensures empty { handle.old.value ≡ None → cause.new ≡ cause.old }
{
    let Some(mut host) = handle.take(alloc) else {
        return CallCode::Empty.number();
    };
    let code = start(&mut host, cause);
    handle.put(alloc, host);
    code.number()
}

/// Begins to reset the controller (mpt.h, `mpt_host_reset`).
#[unsafe(no_mangle)]
pub extern "C" fn mpt_raw_host_reset(alloc: Global, handle: &mut HostHandle, cause: &mut u32) -> u32
    ensures held { OnHandle handle.old.value handle.new.value result
        (λ old new code. Begins old new cause.old cause.new (diag_resets old.host) code) }
    ensures empty { handle.old.value ≡ None → cause.new ≡ cause.old }
{
    let Some(mut host) = handle.take(alloc) else {
        return CallCode::Empty.number();
    };
    let code = diag_reset(&mut host, cause);
    handle.put(alloc, host);
    code.number()
}

/// Begins to reset the message unit (mpt.h, `mpt_host_unit_reset`).
#[unsafe(no_mangle)]
pub extern "C" fn mpt_raw_host_unit_reset(
    alloc: Global,
    handle: &mut HostHandle,
    cause: &mut u32,
) -> u32
    ensures held { OnHandle handle.old.value handle.new.value result
        (λ old new code. Begins old new cause.old cause.new (unit_resets old.host) code) }
    ensures empty { handle.old.value ≡ None → cause.new ≡ cause.old }
{
    let Some(mut host) = handle.take(alloc) else {
        return CallCode::Empty.number();
    };
    let code = unit_reset(&mut host, cause);
    handle.put(alloc, host);
    code.number()
}

/// Asks that a submission is aborted (mpt.h, `mpt_host_abort`).
#[unsafe(no_mangle)]
pub extern "C" fn mpt_raw_host_abort(
    alloc: Global,
    handle: &mut HostHandle,
    number: u32,
    smid: &mut u16,
    cause: &mut u32,
) -> u32
    ensures held { OnHandle handle.old.value handle.new.value result
        (λ old new code. BeginsAs old new smid.old smid.new cause.old cause.new (host_aborts old.host number) code) }
    ensures empty { handle.old.value ≡ None → (smid.new ≡ smid.old) × (cause.new ≡ cause.old) }
{
    let Some(mut host) = handle.take(alloc) else {
        return CallCode::Empty.number();
    };
    let code = abort(&mut host, number, smid, cause);
    handle.put(alloc, host);
    code.number()
}

/// Asks that a disk is reset (mpt.h, `mpt_host_target_reset`).
#[unsafe(no_mangle)]
pub extern "C" fn mpt_raw_host_target_reset(
    alloc: Global,
    handle: &mut HostHandle,
    address: u64,
    smid: &mut u16,
    cause: &mut u32,
) -> u32
    ensures held { OnHandle handle.old.value handle.new.value result
        (λ old new code. BeginsAs old new smid.old smid.new cause.old cause.new (host_resets_target old.host address) code) }
    ensures empty { handle.old.value ≡ None → (smid.new ≡ smid.old) × (cause.new ≡ cause.old) }
{
    let Some(mut host) = handle.take(alloc) else {
        return CallCode::Empty.number();
    };
    let code = target_reset(&mut host, address, smid, cause);
    handle.put(alloc, host);
    code.number()
}

/// Submits a command (mpt.h, `mpt_host_submit`).
#[unsafe(no_mangle)]
pub extern "C" fn mpt_raw_host_submit(
    alloc: Global,
    handle: &mut HostHandle,
    head: &SubmitHead,
    cdb: &[u8],
    bytes: &[u8],
    smid: &mut u16,
    cause: &mut u32,
) -> u32
    ensures held { OnHandle handle.old.value handle.new.value result
        (λ old new code. Submits old new head.now (command_of head.now cdb.now bytes.now) smid.old smid.new cause.old cause.new code) }
    ensures empty { handle.old.value ≡ None → (smid.new ≡ smid.old) × (cause.new ≡ cause.old) }
{
    let Some(mut host) = handle.take(alloc) else {
        return CallCode::Empty.number();
    };
    let code = submit(alloc, &mut host, head, cdb, bytes, smid, cause);
    handle.put(alloc, host);
    code.number()
}

/// What the host puts for the controller (mpt.h, `mpt_host_down`).
#[unsafe(no_mangle)]
pub extern "C" fn mpt_raw_host_down(
    alloc: Global,
    handle: &mut HostHandle,
    head: &mut DownHead,
    frame: &mut [u8; 128],
    bytes: &mut [u8],
) -> u32
    ensures held { OnHandle handle.old.value handle.new.value result
        (λ old new code. PutsDown old new (FillsDown head.old head.new frame.old frame.new bytes.old bytes.new) code) }
    ensures empty { handle.old.value ≡ None → FillsDown head.old head.new frame.old frame.new bytes.old bytes.new None }
{
    let Some(mut host) = handle.take(alloc) else {
        return CallCode::Empty.number();
    };
    let code = put_down(&mut host, head, frame, bytes);
    handle.put(alloc, host);
    code.number()
}

/// The host takes what came up (mpt.h, `mpt_host_up`).
#[unsafe(no_mangle)]
pub extern "C" fn mpt_raw_host_up(
    alloc: Global,
    handle: &mut HostHandle,
    queue: u8,
    head: &UpHead,
    frame: &[u8; 128],
    page: &[u8],
    sense: &[u8],
    strange: &mut StrangeWords,
) -> u32
    ensures held { OnHandle handle.old.value handle.new.value result
        (λ old new code. Hears old new queue (up_on old.host queue head.now frame.now page.now sense.now) strange.old strange.new code) }
    ensures empty { handle.old.value ≡ None → strange.new ≡ strange.old }
{
    let Some(mut host) = handle.take(alloc) else {
        return CallCode::Empty.number();
    };
    let code = hear_up(alloc, &mut host, queue, head, frame, page, sense, strange);
    handle.put(alloc, host);
    code.number()
}

/// What the host tells (mpt.h, `mpt_host_told`).
#[unsafe(no_mangle)]
pub extern "C" fn mpt_raw_host_told(
    alloc: Global,
    handle: &mut HostHandle,
    head: &mut ToldHead,
    bytes: &mut [u8],
    sense: &mut [u8],
) -> u32
    ensures held { OnHandle handle.old.value handle.new.value result
        (λ old new code. Tells old new (FillsTold head.old head.new bytes.old bytes.new sense.old sense.new) code) }
    ensures empty { handle.old.value ≡ None → FillsTold head.old head.new bytes.old bytes.new sense.old sense.new None }
{
    let Some(mut host) = handle.take(alloc) else {
        return CallCode::Empty.number();
    };
    let code = tell(&mut host, head, bytes, sense);
    handle.put(alloc, host);
    code.number()
}
