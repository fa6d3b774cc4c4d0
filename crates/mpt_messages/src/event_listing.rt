//! The listing of an event.
ghost use Rattle.std.specs.Prelude.{◌≡◌, ◌+◌, ◌*◌, ◌++◌, ◌≤◌, OnOk, length};
ghost use Rattle.mpt_messages.specs.EventListing.{data_text, entries_text, event_listing, kept_text, topology_text};

use crate::listing::{push_heading, push_rows, push_rows_from, push_tail};
use event_msgs::{EventData, EventReply, Topology, TopologyEntry};
use mpt_text::{OutOfMemory, Text};

/// Where a topology change list starts in its event.
const LIST: u8 = 0x1c;

/// Where the list's entries start in its event.
const ENTRIES: u8 = 0x28;

/// Adds the listing of an event: its rows, and its data.
pub(crate) fn push_event(text: &mut Text, m: &EventReply) -> Result<(), OutOfMemory>
    ensures { OnOk result (text.new ≡ text.old ++ event_listing m.now) }
{
    push_heading(text, b"event-reply", m.length() as u64)?;
    push_rows(text, &EventReply::layout(), &m.values())?;
    push_data(text, &m.event_data, m.tail_bytes())
}

// Adds the data, behind whose rows and entries are these bytes.
fn push_data(text: &mut Text, event_data: &EventData, tail: &[u8]) -> Result<(), OutOfMemory>
    ensures { OnOk result (text.new ≡ text.old ++ data_text event_data.now tail.now) }
{
    match event_data {
        EventData::Topology(list) => push_topology(text, list, tail),
        EventData::Other { .. } => push_kept(text, tail),
    }
}

fn push_kept(text: &mut Text, bytes: &[u8]) -> Result<(), OutOfMemory>
    ensures { OnOk result (text.new ≡ text.old ++ kept_text bytes.now) }
{
    text.push(b"1c EventData ")?;
    text.push_bytes(bytes)?;
    text.push(b"\n")
}

// Adds the rows, the entries and the tail of a topology change list.
fn push_topology(text: &mut Text, list: &Topology, tail: &[u8]) -> Result<(), OutOfMemory>
    ensures { OnOk result (text.new ≡ text.old ++ topology_text list.now tail.now) }
{
    push_rows_from(text, LIST, &Topology::layout(), &list.values())?;
    push_entries(text, list.listed())?;
    push_tail(text, entry_offset(list.listed().len()), tail)
}

// Where the entry with this number starts.
fn entry_offset(number: usize) -> u8
    requires { number ≤ 22 }
    ensures { result ≡ ENTRIES + 4 * number }
{
    ENTRIES + 4 * number as u8
}

fn push_entries(text: &mut Text, entries: &[TopologyEntry]) -> Result<(), OutOfMemory>
    requires { length entries.now ≤ 22 }
    ensures { OnOk result (text.new ≡ text.old ++ entries_text 0x28 entries.now) }
{
    for i in 0..entries.len() {
        push_rows_from(
            text,
            entry_offset(i),
            &TopologyEntry::layout(),
            &entries[i].values(),
        )?;
    }
    Ok(())
}
