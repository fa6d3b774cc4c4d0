//! The summary of the trace.
ghost use Rattle.std.specs.Prelude.{◌≡◌, IfOk};
ghost use Rattle.mpt_system.specs.Summary.{whole_summary};

use crate::laws::disks_stay;
use crate::system::System;
use disk_machine::{summaries_agree, summary_of_trace};
use mpt_rules::OutOfMemory;
use mpt_trace::Summary;
use std::alloc::Global;

impl System {
    /// The summary of the trace: what became of the disks, the requests and the host by what the trace
    /// tells, in which phases the handles are, and whether all is quiet; or OutOfMemory. What is
    /// pending isn't in the trace, and isn't counted.
    pub fn summary(&self, alloc: Global) -> Result<Summary, OutOfMemory>
        ensures { IfOk result (λ summary. summary ≡ whole_summary self.now) }
    {
        // What the parts say is what the rules say of their phases.
        summaries_agree();
        // The disks are those that were declared.
        disks_stay();
        summary_of_trace(
            alloc,
            &self.disks,
            self.parties.trace.as_slice(),
            self.parts_summary(),
        )
    }
}
