//! Whether the parties ended quiet.
ghost use Rattle.std.specs.Prelude.{◌≡◌};
ghost use Rattle.live_session.specs.Ended.{are_quiet};

use host_core::Host;
use ioc_core::Ioc;
use sas_fabric::Fabric;

/// Whether no party has anything left to do, and the host waits for nothing.
pub(crate) fn are_quiet(host: &Host, ioc: &Ioc, fabric: &Fabric) -> bool
    ensures { result ≡ are_quiet host.now.host ioc.now.part fabric.now }
{
    host.front_down().is_none() && !host.waits() && ioc.quiet() && fabric.quiet()
}
