//! The lines at the end of a report.
ghost use Rattle.std.specs.Prelude.{◌≡◌, ◌++◌, IfOk, OnOk, map};
ghost use Rattle.std.specs.List.{flat_map};
ghost use Rattle.mpt_trace.specs.Counts.{named_number};
ghost use Rattle.mpt_trace.specs.Summary.{answers_line, counts_line, disk_line, phases_line, state_line, state_text, summary_lines, whereabouts};

use crate::host_state::HostState;
use crate::numbers::{push_addressed, push_number, push_place};
use crate::summary::{DiskLine, Summary};
use mpt_text::{OutOfMemory, Text};
use std::alloc::Global;

/// The lines at the end of a report, each with its end: the disks, the answers, the phases and the
/// state; or OutOfMemory.
pub fn summary_text(alloc: Global, s: &Summary) -> Result<Text, OutOfMemory>
    ensures { IfOk result (λ text. text ≡ summary_lines s.now) }
{
    let mut text = Text::new(alloc);
    push_disks(&mut text, s.disks.as_slice())?;
    push_answers(&mut text, s)?;
    push_phases(&mut text, s)?;
    push_state(&mut text, s.state, s.quiet)?;
    Ok(text)
}

fn push_disks(text: &mut Text, disks: &[DiskLine]) -> Result<(), OutOfMemory>
    ensures { OnOk result (text.new ≡ text.old ++ flat_map disk_line disks.now) }
{
    for disk in disks {
        push_disk(text, *disk)?;
    }
    Ok(())
}

fn push_disk(text: &mut Text, disk: DiskLine) -> Result<(), OutOfMemory>
    ensures { OnOk result (text.new ≡ text.old ++ disk_line disk) }
{
    push_addressed(text, b"disk ", disk.address)?;
    push_whereabouts(text, disk.at)?;
    push_number(text, b" sum ", disk.sum)?;
    text.push(b"\n")
}

fn push_whereabouts(text: &mut Text, at: Option<(u8, u8)>) -> Result<(), OutOfMemory>
    ensures { OnOk result (text.new ≡ text.old ++ whereabouts at) }
{
    match at {
        Some((expander, phy)) => {
            text.push(b" at ")?;
            push_place(text, expander, phy)
        }
        None => text.push(b" out"),
    }
}

fn push_answers(text: &mut Text, s: &Summary) -> Result<(), OutOfMemory>
    ensures { OnOk result (text.new ≡ text.old ++ answers_line s.now) }
{
    push_counts(
        text,
        &[
            Count::new(b"answers done ", s.done),
            Count::new(b" gone ", s.gone),
            Count::new(b" terminated ", s.terminated),
            Count::new(b" reset ", s.reset),
            Count::new(b" refused ", s.refused),
            Count::new(b" open ", s.unanswered),
        ],
    )
}

fn push_phases(text: &mut Text, s: &Summary) -> Result<(), OutOfMemory>
    ensures { OnOk result (text.new ≡ text.old ++ phases_line s.now) }
{
    push_counts(
        text,
        &[
            Count::small(b"phases reading ", s.reading),
            Count::small(b" ready ", s.ready),
            Count::small(b" waiting ", s.waiting),
            Count::small(b" resetting ", s.resetting),
            Count::small(b" removing ", s.removing),
        ],
    )
}

// A number and the words before it.
#[derive(Clone, Copy)]
struct Count {
    name: &'static [u8],
    number: u64,
}

impl Count {
    fn new(name: &'static [u8], number: u64) -> Count
        ensures { named_number result ≡ (name.now, number) }
    {
        Count { name, number }
    }

    fn small(name: &'static [u8], number: u8) -> Count
        ensures { named_number result ≡ (name.now, number) }
    {
        Count::new(name, u64::from(number))
    }
}

fn push_counts(text: &mut Text, counts: &[Count]) -> Result<(), OutOfMemory>
    ensures { OnOk result (text.new ≡ text.old ++ counts_line (map named_number counts.now)) }
{
    for count in counts {
        push_number(text, count.name, count.number)?;
    }
    text.push(b"\n")
}

fn push_state(text: &mut Text, state: HostState, quiet: bool) -> Result<(), OutOfMemory>
    ensures { OnOk result (text.new ≡ text.old ++ state_line state quiet) }
{
    text.push(b"state ")?;
    push_host_state(text, state)?;
    text.push(b" quiet ")?;
    text.push(if quiet { b"yes\n" } else { b"no\n" })
}

fn push_host_state(text: &mut Text, state: HostState) -> Result<(), OutOfMemory>
    ensures { OnOk result (text.new ≡ text.old ++ state_text state) }
{
    match state {
        HostState::Off => text.push(b"off"),
        HostState::Starting => text.push(b"starting"),
        HostState::Up => text.push(b"up"),
        HostState::Resetting => text.push(b"resetting"),
    }
}
