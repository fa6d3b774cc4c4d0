//! An event's data.
ghost use Rattle.std.specs.Prelude.{◌≡◌, ◌==◌, ◌*◌, ◌≤◌, IsTrue, IfOk, MatchResult, Some, length, take, drop};
ghost use Rattle.std.specs.List.{list_all};
ghost use Rattle.mpi_layout.specs.Rows.{field};
ghost use Rattle.event_msgs.specs.EventData.{DataStands, data_fit, data_tail, kind_fits};
ghost use Rattle.mpi_layout.specs.Tail.{padded};
ghost use Rattle.event_msgs.specs.Topology.{topology_refusal};

use crate::topology::{Topology, read_topology, topology_fits, write_topology};
use mpi_layout::{Fault, is_zero_from, padded};
use mpi_names::MPI2_EVENT_SAS_TOPOLOGY_CHANGE_LIST;

/// An event's data (mpi2_ioc.h, EventData of MPI2_EVENT_NOTIFICATION_REPLY).
#[derive(Clone, Copy, Debug, PartialEq, Eq)]
pub enum EventData {
    /// A SAS topology change list, the data of MPI2_EVENT_SAS_TOPOLOGY_CHANGE_LIST.
    Topology(Topology),
    /// The data of any other event, which aren't read.
    Other {
        /// The bytes of the data, and 0 past them.
        bytes: [u8; 100],
    },
}

impl EventData {
    // Whether they are the data of this event.
    pub(crate) fn is_of(&self, event: u16) -> bool
        ensures { result ≡ kind_fits event self.now }
    {
        match self {
            EventData::Topology(_) => event == MPI2_EVENT_SAS_TOPOLOGY_CHANGE_LIST,
            EventData::Other { .. } => event != MPI2_EVENT_SAS_TOPOLOGY_CHANGE_LIST,
        }
    }

    // Whether some data of so many bytes stand for them.
    pub(crate) fn fits(&self, length: usize) -> bool
        ensures { result ≡ data_fit length self.now }
    {
        match self {
            EventData::Topology(t) => topology_fits(t, length),
            EventData::Other { bytes } => is_zero_from(bytes, length),
        }
    }

    // The bytes of the data behind the rows and the entries, of so many in all.
    pub(crate) fn tail(&self, length: usize) -> &[u8]
        ensures { result.now ≡ data_tail length self.now }
    {
        match self {
            EventData::Topology(t) => t.tail_bytes(length),
            EventData::Other { bytes } => front(bytes, length),
        }
    }
}

// The first bytes, so many or all.
fn front(bytes: &[u8; 100], count: usize) -> &[u8]
    ensures { result.now ≡ take count bytes.now }
{
    &bytes[..count.min(bytes.len())]
}

// Reads the event's data of so many dwords.
pub(crate) fn read_data(event: u16, words: u16, bytes: &[u8]) -> Result<EventData, Fault>
    requires few { words ≤ 25 }
    requires whole { length bytes.now ≡ 4 * words }
    ensures read { MatchResult result (λ d. IsTrue (kind_fits event d) × DataStands d bytes.now)
        (λ fault. (event ≡ MPI2_EVENT_SAS_TOPOLOGY_CHANGE_LIST) × (topology_refusal words (field bytes.now 8 1) ≡ Some fault)) }
    ensures fitting { IfOk result (λ d. IsTrue (data_fit (length bytes.now) d)) }
{
    if event == MPI2_EVENT_SAS_TOPOLOGY_CHANGE_LIST {
        Ok(EventData::Topology(read_topology(words, bytes)?))
    } else {
        Ok(EventData::Other {
            bytes: padded(bytes),
        })
    }
}

// Writes the event's data over these bytes.
pub(crate) fn write_data(event_data: &EventData, out: &mut [u8])
    requires few { length out.old ≤ 100 }
    requires fitting { IsTrue (data_fit (length out.old) event_data.now) }
    ensures { DataStands event_data.now out.new }
{
    match event_data {
        EventData::Topology(t) => write_topology(t, out),
        EventData::Other { bytes } => write_kept(bytes, out),
    }
}

// Writes data that aren't read over these bytes.
fn write_kept(kept: &[u8; 100], out: &mut [u8])
    requires few { length out.old ≤ 100 }
    requires fitting { IsTrue (list_all (λ byte. byte == 0) (drop (length out.old) kept.now)) }
    ensures { kept.now ≡ padded 100 out.new }
{
    out.copy_from_slice(&kept[..out.len()]);
}
