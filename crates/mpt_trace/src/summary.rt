//! What stands at the end of a run.
ghost use Rattle.std.specs.Prelude.{◌≡◌};

use crate::host_state::HostState;
use mpi_names::Address;
use std::marker::Model;

/// A disk at the end of a run.
#[derive(Clone, Copy)]
pub struct DiskLine {
    /// Its SAS address.
    pub address: Address,
    /// The expander's number and the phy where it is plugged.
    pub at: Option<(u8, u8)>,
    /// The sum over all its bytes of (place + 1) times the byte, with places from 0.
    pub sum: u64,
}

/// The disks at the end of a run, in the order of their declarations. A contract sees them as a
/// list.
#[derive(Drop)]
pub struct DiskLines {
    items: Vec<DiskLine>,
}

impl Model for DiskLines {
    ghost use Rattle.std.specs.Prelude.{List};
    ghost use Rattle.mpt_trace.specs.declared.summary.DiskLine.{DiskLine};

    ghost Value = { List DiskLine };

    ghost view = { λ lines. lines.items.items };
}

impl DiskLines {
    /// These disks.
    pub fn new(items: Vec<DiskLine>) -> DiskLines
        ensures { result ≡ items.items }
    {
        DiskLines { items }
    }

    /// The disks as a slice.
    pub fn as_slice(&self) -> &[DiskLine]
        ensures { result.now ≡ self.now }
    {
        &self.items
    }
}

/// What stands at the end of a run.
#[derive(Drop)]
pub struct Summary {
    /// The disks.
    pub disks: DiskLines,
    /// How many submissions a disk answered.
    pub done: u64,
    /// How many submissions were answered as gone.
    pub gone: u64,
    /// How many submissions were terminated.
    pub terminated: u64,
    /// How many submissions a reset ended.
    pub reset: u64,
    /// How many submissions were refused.
    pub refused: u64,
    /// How many accepted submissions weren't answered.
    pub unanswered: u64,
    /// How many disks the host is reading the page of.
    pub reading: u8,
    /// How many disks are ready.
    pub ready: u8,
    /// How many disks wait, in the three waiting phases together.
    pub waiting: u8,
    /// How many disks are being reset.
    pub resetting: u8,
    /// How many disks are being removed.
    pub removing: u8,
    /// The host's state.
    pub state: HostState,
    /// Whether nothing was on its way.
    pub quiet: bool,
}
