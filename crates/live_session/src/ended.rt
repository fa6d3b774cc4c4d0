//! What a session leaves.
use host_core::Host;
use ioc_core::Ioc;
use mpt_journal::Journal;
use mpt_trace::{Summary, Trace};
use sas_fabric::Fabric;

/// What a session leaves once all its parties have ended.
#[derive(Drop)]
pub struct Ended {
    /// The trace: the entries of all journals, by rising stamp and party.
    pub trace: Trace,
    /// The summary of the trace, and of the parties as they ended.
    pub summary: Summary,
    /// The host as it ended.
    pub host: Host,
    /// The controller as it ended.
    pub ioc: Ioc,
    /// The fabric as it ended.
    pub fabric: Fabric,
    /// The journals of the host, the controller, the fabric, and the submitters by their number.
    pub journals: Vec<Journal>,
}
