//! What the host and the controller told goes into the trace.
ghost use Rattle.std.specs.Prelude.{◌≡◌, ◌++◌, [], OnOk};

use host_core::Host;
use ioc_core::Ioc;
use mpt_rules::OutOfMemory;
use mpt_trace::Trace;

/// What the host told is written behind the trace. After OutOfMemory what isn't written yet is still
/// told.
pub fn write_host_told(host: &mut Host, trace: &mut Trace) -> Result<(), OutOfMemory>
    ensures all { trace.new.entries ++ host.new.told ≡ trace.old.entries ++ host.old.told }
    ensures host { host.new.host ≡ host.old.host }
    ensures ok { OnOk result (host.new.told ≡ []) }
{
    loop {
        trace.reserve(1)?;
        let Some(entry) = host.answers() else {
            return Ok(());
        };
        trace.push(entry).unwrap();
    }
}

/// The same of the controller.
pub fn write_ioc_told(ioc: &mut Ioc, trace: &mut Trace) -> Result<(), OutOfMemory>
    ensures all { trace.new.entries ++ ioc.new.told ≡ trace.old.entries ++ ioc.old.told }
    ensures part { ioc.new.part ≡ ioc.old.part }
    ensures ok { OnOk result (ioc.new.told ≡ []) }
{
    loop {
        trace.reserve(1)?;
        let Some(entry) = ioc.told() else {
            return Ok(());
        };
        trace.push(entry).unwrap();
    }
}
