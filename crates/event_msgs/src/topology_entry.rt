//! An entry of a SAS topology change list.
ghost use Rattle.std.specs.Prelude.{◌≡◌, ◌==◌, ◌&&◌, ◌≤◌, IsTrue, Ok, length, drop};
ghost use Rattle.mpi_layout.specs.Rows.{cut_from, values_fit};
ghost use Rattle.event_msgs.specs.TopologyEntry.{entry_at, is_blank, topology_entry_layout, topology_entry_values};

use mpi_layout::{Fault, Layout, Row, Rule, low, number, read, write};

// mpi2_ioc.h, MPI2_EVENT_SAS_TOPO_PHY_ENTRY.
static TOPOLOGY_ENTRY_ROWS: [Row; 3] = [
    number!(0x00, 2, "AttachedDevHandle", Rule::Any),
    number!(0x02, 1, "LinkRate", Rule::Any),
    number!(0x03, 1, "PhyStatus", Rule::Any),
];

/// An entry of a SAS topology change list (mpi2_ioc.h, MPI2_EVENT_SAS_TOPO_PHY_ENTRY): what changed
/// at one phy. 4 bytes.
#[derive(Clone, Copy, Debug, PartialEq, Eq)]
pub struct TopologyEntry {
    /// The handle of the device at the phy.
    pub attached_dev_handle: u16,
    /// The phy's link rate: the new one in the high four bits, the one before in the low four.
    pub link_rate: u8,
    /// What changed, in the low four bits: 1 added, 2 not responding, 3 phy change, 4 no change, 5
    /// delay; 80 where the phy is vacant.
    pub phy_status: u8,
}

impl TopologyEntry {
    /// An entry that has in each row 0 or the first number that the row's rule names.
    pub const BLANK: TopologyEntry = TopologyEntry {
        attached_dev_handle: 0,
        link_rate: 0,
        phy_status: 0,
    };

    /// The layout: 3 rows, 4 bytes.
    pub fn layout() -> Layout<3>
        ensures { result ≡ topology_entry_layout }
    {
        Layout::new(&TOPOLOGY_ENTRY_ROWS, 4)
    }

    /// The fields' numbers in the layout's order.
    pub fn values(&self) -> [u64; 3]
        ensures values { result ≡ topology_entry_values self.now }
        ensures fitting { IsTrue (values_fit topology_entry_layout.rows result) }
    {
        [
            u64::from(self.attached_dev_handle),
            u64::from(self.link_rate),
            u64::from(self.phy_status),
        ]
    }

    // The entry whose fields are the low bytes of these numbers.
    fn from_values(values: &[u64; 3]) -> TopologyEntry
        ensures { topology_entry_values result ≡ cut_from topology_entry_layout.rows values.now 0 }
    {
        TopologyEntry {
            attached_dev_handle: low!(values[0], 2),
            link_rate: low!(values[1], 1),
            phy_status: low!(values[2], 1),
        }
    }

    // Whether all of its numbers are 0.
    pub(crate) fn is_blank(&self) -> bool
        ensures { result ≡ is_blank self.now }
    {
        self.attached_dev_handle == 0 && self.link_rate == 0 && self.phy_status == 0
    }
}

// Reads the entry in the first four bytes, which are there.
pub(crate) fn read_entry(bytes: &[u8]) -> Result<TopologyEntry, Fault>
    requires { 4 ≤ length bytes.now }
    ensures { result ≡ Ok (entry_at bytes.now 0) }
{
    let values = read(&TopologyEntry::layout(), bytes)?;
    Ok(TopologyEntry::from_values(&values))
}

// Writes the entry into the first four bytes. The others stay.
pub(crate) fn write_entry(entry: &TopologyEntry, out: &mut [u8])
    requires { 4 ≤ length out.old }
    ensures entry { entry_at out.new 0 ≡ entry.now }
    ensures rest { drop 4 out.new ≡ drop 4 out.old }
{
    write(&TopologyEntry::layout(), &entry.values(), out);
}
