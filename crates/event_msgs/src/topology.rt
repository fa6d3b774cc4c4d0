//! A SAS topology change list.
ghost use Rattle.std.specs.Prelude.{◌≡◌, ℕ, ◌+◌, ◌-◌, ◌*◌, ◌<◌, ◌≤◌, ◌++◌, IsTrue, IfOk, MatchResult, Ok, Some, length, take, drop, map, replicate, slice_index_or};
ghost use Rattle.std.specs.List.{list_all, range_with_len};
ghost use Rattle.mpi_layout.specs.Rows.{cut_from, field};
ghost use Rattle.event_msgs.specs.TopologyEntry.{blank, entry_at, is_blank};
ghost use Rattle.event_msgs.specs.Topology.{TopologyStands, topology_end, topology_fit, topology_layout, topology_refusal, topology_values};

use crate::topology_entry::{TopologyEntry, read_entry, write_entry};
use mpi_layout::{Fault, Layout, Row, Rule, fits, is_zero_from, low, number, padded, read, write};

// The offset of the entries in the event data.
const ENTRIES: usize = 12;

// mpi2_ioc.h, MPI2_EVENT_DATA_SAS_TOPOLOGY_CHANGE_LIST.
static TOPOLOGY_ROWS: [Row; 9] = [
    number!(0x00, 2, "EnclosureHandle", Rule::Any),
    number!(0x02, 2, "ExpanderDevHandle", Rule::Any),
    number!(0x04, 1, "NumPhys", Rule::Any),
    number!(0x05, 1, "Reserved", Rule::Any),
    number!(0x06, 2, "Reserved", Rule::Any),
    number!(0x08, 1, "NumEntries", Rule::Any),
    number!(0x09, 1, "StartPhyNum", Rule::Any),
    number!(0x0a, 1, "ExpStatus", Rule::Any),
    number!(0x0b, 1, "PhysicalPort", Rule::Any),
];

/// A SAS topology change list (mpi2_ioc.h, MPI2_EVENT_DATA_SAS_TOPOLOGY_CHANGE_LIST): what changed
/// at an expander's phys. 12 bytes, NumEntries entries of 4 bytes, and a tail: the data of event
/// 001c.
#[derive(Clone, Copy, Debug, PartialEq, Eq)]
pub struct Topology {
    /// The enclosure's handle.
    pub enclosure_handle: u16,
    /// The expander's handle, or 0 for the controller's own phys.
    pub expander_dev_handle: u16,
    /// How many phys the expander has.
    pub num_phys: u8,
    /// Reserved; kept as it is.
    pub reserved_21: u8,
    /// Reserved; kept as it is.
    pub reserved_22: u16,
    /// How many entries the list has.
    pub num_entries: u8,
    /// The phy of the first entry.
    pub start_phy_num: u8,
    /// The expander: 0 none, 1 added, 2 not responding, 3 responding, 4 delay.
    pub exp_status: u8,
    /// The controller's port.
    pub physical_port: u8,
    /// The entries, the first NumEntries of these, and zeros past them.
    pub entries: [TopologyEntry; 22],
    /// The event data behind the entries, and 0 past it.
    pub tail: [u8; 88],
}

impl Topology {
    /// A list that has in each row 0 or the first number that the row's rule names, and no entries.
    pub const BLANK: Topology = Topology {
        enclosure_handle: 0,
        expander_dev_handle: 0,
        num_phys: 0,
        reserved_21: 0,
        reserved_22: 0,
        num_entries: 0,
        start_phy_num: 0,
        exp_status: 0,
        physical_port: 0,
        entries: [TopologyEntry::BLANK; 22],
        tail: [0; 88],
    };

    /// The layout of the rows in front of the entries: 9 rows, 12 bytes from byte 28 of the event
    /// on, from which its offsets count.
    pub fn layout() -> Layout<9>
        ensures { result ≡ topology_layout }
    {
        Layout::new(&TOPOLOGY_ROWS, 12)
    }

    /// The fields' numbers in the layout's order.
    pub fn values(&self) -> [u64; 9]
        ensures { result ≡ topology_values self.now }
    {
        [
            u64::from(self.enclosure_handle),
            u64::from(self.expander_dev_handle),
            u64::from(self.num_phys),
            u64::from(self.reserved_21),
            u64::from(self.reserved_22),
            u64::from(self.num_entries),
            u64::from(self.start_phy_num),
            u64::from(self.exp_status),
            u64::from(self.physical_port),
        ]
    }

    // The list with no entry and no tail whose fields are the low bytes of these numbers.
    fn from_values(values: &[u64; 9]) -> Topology
        ensures { topology_values result ≡ cut_from topology_layout.rows values.now 0 }
    {
        Topology {
            enclosure_handle: low!(values[0], 2),
            expander_dev_handle: low!(values[1], 2),
            num_phys: low!(values[2], 1),
            reserved_21: low!(values[3], 1),
            reserved_22: low!(values[4], 2),
            num_entries: low!(values[5], 1),
            start_phy_num: low!(values[6], 1),
            exp_status: low!(values[7], 1),
            physical_port: low!(values[8], 1),
            entries: [TopologyEntry::BLANK; 22],
            tail: [0; 88],
        }
    }

    // Where the entries end in the event data.
    fn end(&self) -> usize
        ensures { result ≡ topology_end self.now }
    {
        ENTRIES + 4 * usize::from(self.num_entries)
    }

    /// The entries that the list has: the first NumEntries, of 22 at most.
    pub fn listed(&self) -> &[TopologyEntry]
        ensures listed { result.now ≡ take self.now.num_entries self.now.entries }
        ensures few { length result.now ≤ 22 }
    {
        let count = usize::from(self.num_entries);
        &self.entries[..count.min(self.entries.len())]
    }

    // The bytes behind the entries in event data of so many bytes.
    pub(crate) fn tail_bytes(&self, length: usize) -> &[u8]
        ensures { result.now ≡ take (length - topology_end self.now) self.now.tail }
    {
        let count = length.saturating_sub(self.end());
        &self.tail[..count.min(self.tail.len())]
    }
}

// The first entries of the event data, `count` of them, and blank ones behind them.
fn read_entries(bytes: &[u8], count: usize) -> Result<[TopologyEntry; 22], Fault>
    requires few { count ≤ 22 }
    requires whole { 12 + 4 * count ≤ length bytes.now }
    ensures { result ≡ Ok (map (λ i. entry_at bytes.now (12 + 4 * i)) (range_with_len 0 count)
        ++ replicate (22 - count) blank) }
{
    let mut entries = [TopologyEntry::BLANK; 22];
    for i in 0..count {
        entries[i] = read_entry(&bytes[ENTRIES + 4 * i..])?;
    }
    Ok(entries)
}

// Reads the list that is the event data of so many dwords.
pub(crate) fn read_topology(words: u16, bytes: &[u8]) -> Result<Topology, Fault>
    requires few { words ≤ 25 }
    requires whole { length bytes.now ≡ 4 * words }
    ensures read { MatchResult result (λ t. TopologyStands t bytes.now)
        (λ fault. topology_refusal words (field bytes.now 8 1) ≡ Some fault) }
    ensures fitting { IfOk result (λ t. IsTrue (topology_fit (length bytes.now) t)) }
{
    if words < 3 {
        return Err(Fault::Field { at: 0x00 });
    }
    let values = read(&Topology::layout(), bytes)?;
    let mut t = Topology::from_values(&values);
    if 3 + u16::from(t.num_entries) > words {
        return Err(Fault::Field { at: 0x24 });
    }
    t.entries = read_entries(bytes, usize::from(t.num_entries))?;
    t.tail = padded(&bytes[t.end()..]);
    Ok(t)
}

// Whether the list fits event data of so many bytes.
pub(crate) fn topology_fits(t: &Topology, length: usize) -> bool
    ensures { result ≡ topology_fit length t.now }
{
    fits(&Topology::layout(), &t.values())
        && t.end() <= length
        && are_blank_from(&t.entries, usize::from(t.num_entries))
        && is_zero_from(&t.tail, length.saturating_sub(t.end()))
}

// Whether the entries from this place on are blank.
fn are_blank_from(entries: &[TopologyEntry], from: usize) -> bool
    ensures { result ≡ list_all is_blank (drop from entries.now) }
{
    entries.iter().skip(from).all(|entry| entry.is_blank())
}

// Writes the entries into the event data. The bytes in front of them stay.
fn write_entries(entries: &[TopologyEntry], out: &mut [u8])
    requires { 12 + 4 * length entries.now ≤ length out.old }
    ensures entries { (k : ℕ) → k < length entries.now
        → entry_at out.new (12 + 4 * k) ≡ slice_index_or entries.now k blank }
    ensures front { take 12 out.new ≡ take 12 out.old }
{
    for (i, entry) in entries.iter().enumerate() {
        write_entry(entry, &mut out[ENTRIES + 4 * i..]);
    }
}

// Writes the list as the whole event data.
pub(crate) fn write_topology(t: &Topology, out: &mut [u8])
    requires few { length out.old ≤ 100 }
    requires fitting { IsTrue (topology_fit (length out.old) t.now) }
    ensures { TopologyStands t.now out.new }
{
    write(&Topology::layout(), &t.values(), out);
    write_entries(t.listed(), out);
    let end = t.end();
    let past = out.len() - end;
    out[end..].copy_from_slice(&t.tail[..past]);
}
