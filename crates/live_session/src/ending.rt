//! The parties in threads, joined.
ghost use Rattle.std.specs.Prelude.{◌≡◌, [], IfOk, vec_len};
ghost use Rattle.live_session.specs.Lanes.{AreFabricEnds};
ghost use Rattle.live_session.specs.Left.{FabricLed, HostLed, IocLed, PartiesLeft, SubmittersBegin, SubmittersLeft};

use crate::cores::Cores;
use crate::lanes::Lanes;
use crate::sides::CoreSides;
use crate::submitters::submitters_work;
use crate::works::{fabric_work, host_work, ioc_work};
use host_core::Host;
use ioc_core::Ioc;
use mpt_journal::{Journal, OutOfMemory};
use mpt_live::{Gate, SubmitterEnd, Workplace};
use sas_fabric::Fabric;
use std::alloc::Global;
use std::sync::Wait;
use std::thread::{Threads, join};

/// The parties as they ended, each with its journal; the journals of the submitters by their number.
#[derive(Drop)]
pub(crate) struct Left {
    pub(crate) host: (Host, Journal),
    pub(crate) ioc: (Ioc, Journal),
    pub(crate) fabric: (Fabric, Journal),
    pub(crate) submitters: Vec<Journal>,
}

/// Runs all parties, each in a thread of its own, until all have ended. OutOfMemory where memory was wanting for one of
/// them.
pub(crate) fn run_parties<'a, R: Threads + Wait + Sync, G: Gate + Sync>(
    rt: &R,
    gate: &G,
    alloc: Global,
    cores: Cores,
    lanes: &'a Lanes,
    ends: Vec<SubmitterEnd<'a>>,
    sides: CoreSides<'a>,
) -> Result<Left, OutOfMemory>
    requires host { cores.host.told ≡ [] }
    requires ioc { cores.ioc.told ≡ [] }
    requires fabric { AreFabricEnds lanes.now sides.fabric }
    requires submitters { SubmittersBegin 0 ends.items }
    ensures { IfOk result (λ left. PartiesLeft cores.host.host cores.ioc.part cores.fabric (vec_len ends.entry) left) }
{
    let workplace = Workplace::new();
    let place = &workplace;
    let Cores { host, ioc, fabric } = cores;
    let ((host, ioc), (fabric, submitters)) = join(
        rt,
        ||
            requires { (host.told ≡ []) × (ioc.told ≡ []) }
            ensures { HostLed host.host result.0 × IocLed ioc.part result.1 }
        {
            join(
                rt,
                ||
                    requires { host.told ≡ [] }
                    ensures { HostLed host.host result }
                { host_work(rt, place, gate, alloc, host, sides.host) },
                ||
                    requires { ioc.told ≡ [] }
                    ensures { IocLed ioc.part result }
                { ioc_work(rt, place, gate, alloc, ioc, sides.ioc) },
            )
        },
        ||
            requires { AreFabricEnds lanes.now sides.fabric × SubmittersBegin 0 ends.items }
            ensures { FabricLed fabric result.0 × IfOk result.1 (λ journals. SubmittersLeft 0 journals.items × (vec_len journals ≡ vec_len ends.entry)) }
        {
            join(
                rt,
                ||
                    requires { AreFabricEnds lanes.now sides.fabric }
                    ensures { FabricLed fabric result }
                { fabric_work(rt, place, gate, alloc, fabric, sides.fabric.on_lanes(lanes)) },
                ||
                    requires { SubmittersBegin 0 ends.items }
                    ensures { IfOk result (λ journals. SubmittersLeft 0 journals.items × (vec_len journals ≡ vec_len ends.entry)) }
                { submitters_work(rt, place, gate, alloc, ends) },
            )
        },
    );
    Ok(Left {
        host: host?,
        ioc: ioc?,
        fabric: fabric?,
        submitters: submitters?,
    })
}
