//! The work of the host, the controller and the fabric.
ghost use Rattle.std.specs.Prelude.{◌≡◌, []};
ghost use Rattle.live_session.specs.Left.{FabricLed, HostLed, IocLed};

use crate::sides::{FabricSide, HostSide, IocSide};
use host_core::Host;
use ioc_core::Ioc;
use mpt_journal::{Journal, OutOfMemory};
use mpt_live::{FabricEnd, Gate, HostEnd, IocEnd, Workplace, run_fabric, run_host, run_ioc};
use sas_fabric::Fabric;
use std::alloc::Global;
use std::sync::Wait;

/// The host's work: the host as it ended, with its journal. OutOfMemory where memory was wanting, here or for another
/// party.
pub(crate) fn host_work<'a, R: Wait, G: Gate>(
    rt: &R,
    workplace: &Workplace,
    gate: &G,
    alloc: Global,
    host: Host,
    side: HostSide<'a>,
) -> Result<(Host, Journal), OutOfMemory>
    requires { host.told ≡ [] }
    ensures { HostLed host.host result }
{
    let end = HostEnd::new(alloc, host, side.down, side.ups, side.asks, side.tells);
    Ok(run_host(rt, workplace, gate, end)?.finish())
}

/// The controller's work: the controller as it ended, with its journal. OutOfMemory where memory was wanting, here or for
/// another party.
pub(crate) fn ioc_work<'a, R: Wait, G: Gate>(
    rt: &R,
    workplace: &Workplace,
    gate: &G,
    alloc: Global,
    ioc: Ioc,
    side: IocSide<'a>,
) -> Result<(Ioc, Journal), OutOfMemory>
    requires { ioc.told ≡ [] }
    ensures { IocLed ioc.part result }
{
    let end = IocEnd::new(alloc, ioc, side.down, side.ups, side.out, side.back);
    Ok(run_ioc(rt, workplace, gate, end)?.finish())
}

/// The fabric's work: the fabric as it ended, with its journal. It does its first `first` lines before it takes an item.
/// OutOfMemory where memory was wanting, here or for another party.
pub(crate) fn fabric_work<'a, R: Wait, G: Gate>(
    rt: &R,
    workplace: &Workplace,
    gate: &G,
    alloc: Global,
    fabric: Fabric,
    side: FabricSide<'a>,
) -> Result<(Fabric, Journal), OutOfMemory>
    ensures { FabricLed fabric result }
{
    let end = FabricEnd::new(
        alloc,
        fabric,
        side.lines.all,
        side.lines.first,
        side.out,
        side.back,
    );
    Ok(run_fabric(rt, workplace, gate, end)?.finish())
}
