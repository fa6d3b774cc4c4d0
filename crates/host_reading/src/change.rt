//! The changes that events name.
ghost use Rattle.std.specs.Prelude.{◌≡◌, ◌+◌, ◌*◌, ◌<◌, ◌≤◌};
ghost use Rattle.mpt_wire.specs.Messages.Fields.{change_at, changes_from, changes_in};
ghost use Rattle.mpt_rules.specs.Host.Removal.{added_handle, added_handles, first_not_absent, is_disk_handle};
ghost use Rattle.host_reading.specs.Changes.{IsCount};

use crate::number::u16_at;
use crate::reply::event_of;
use host_tables::HandlePhases;
use mpi_names::{
    MPI2_EVENT_SAS_TOPO_RC_MASK, MPI2_EVENT_SAS_TOPO_RC_TARG_ADDED,
    MPI2_EVENT_SAS_TOPOLOGY_CHANGE_LIST,
};
use mpt_trace::Handle;
use removal::{FIRST_HANDLE, LAST_HANDLE};
use std::marker::Model;

// Where a topology event has NumEntries, and where its entries begin (mpi2_ioc.h,
// MPI2_EVENT_DATA_SAS_TOPOLOGY_CHANGE_LIST behind MPI2_EVENT_NOTIFICATION_REPLY).
const NUM_ENTRIES: usize = 0x24;

const ENTRIES: usize = 0x28;

// The bytes of an entry (mpi2_ioc.h, MPI2_EVENT_SAS_TOPO_PHY_ENTRY), and where it has PhyStatus.
const ENTRY_BYTES: usize = 4;

const PHY_STATUS: usize = 3;

// How many entries a frame has room for.
const MOST_ENTRIES: u8 = 22;

/// A change that a SAS topology change list names: AttachedDevHandle, and the low four bits of
/// PhyStatus.
#[derive(Clone, Copy)]
pub struct Change {
    handle: Handle,
    status: u8,
}

impl Model for Change {
    ghost use Rattle.mpt_wire.specs.Messages.Fields.{Change};

    ghost Value = { Change };

    ghost view = { λ c. record { handle = c.handle; status = c.status } };

    ghost inverse = { λ c. record { handle = c.handle; status = c.status } };
}

impl Change {
    /// AttachedDevHandle.
    pub fn handle(&self) -> Handle
        ensures { result ≡ self.now.handle }
    {
        self.handle
    }

    /// What changed, the low four bits of PhyStatus.
    pub fn status(&self) -> u8
        ensures { result ≡ self.now.status }
    {
        self.status
    }

    // The handle where it may be a disk's and is named as added.
    fn added(&self) -> Option<Handle>
        ensures { result ≡ added_handle self.now }
    {
        if self.status == MPI2_EVENT_SAS_TOPO_RC_TARG_ADDED && is_disk_handle(self.handle) {
            Some(self.handle)
        } else {
            None
        }
    }
}

/// Whether the handle may be a disk's, from 0x0009 to 0x0048.
pub fn is_disk_handle(handle: Handle) -> bool
    ensures { result ≡ is_disk_handle handle }
{
    FIRST_HANDLE <= handle && handle <= LAST_HANDLE
}

/// How many changes the frame of an event has room for and names: those of a topology change list,
/// and none of any other event.
pub(crate) fn count_changes(frame: &[u8; 128]) -> u8
    ensures most { result ≤ 22 }
    ensures count { IsCount result frame.now }
{
    if event_of(frame) == MPI2_EVENT_SAS_TOPOLOGY_CHANGE_LIST {
        frame[NUM_ENTRIES].min(MOST_ENTRIES)
    } else {
        0
    }
}

/// The change at a place, from 0, in the frame of a topology event.
pub(crate) fn change_at(frame: &[u8; 128], place: u8) -> Change
    requires { place < 22 }
    ensures { result ≡ change_at frame.now (0x28 + 4 * place) }
{
    let at = ENTRIES + ENTRY_BYTES * usize::from(place);
    Change {
        handle: u16_at(frame, at),
        status: frame[at + PHY_STATUS] & MPI2_EVENT_SAS_TOPO_RC_MASK,
    }
}

/// The first disk's handle that an event names as added while it isn't absent. One that is named
/// twice isn't the second time.
pub fn first_not_absent(phases: &HandlePhases, frame: &[u8; 128]) -> Option<Handle>
    ensures { result ≡ first_not_absent phases.now (added_handles (changes_in frame.now)) }
{
    let mut phases = phases.copy();
    for place in 0..count_changes(frame) {
        if let Some(handle) = change_at(frame, place).added() {
            if !phases.is_absent(handle) {
                return Some(handle);
            }
            phases.on_added(handle);
        }
    }
    None
}
