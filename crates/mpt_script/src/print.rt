//! Printing schedules.
ghost use Rattle.std.specs.Prelude.{◌≡◌, ◌≤◌, ◌++◌, IfOk, OnOk};
ghost use Rattle.mpt_script.specs.Schedules.{schedule_of};
ghost use Rattle.mpt_trace.specs.Numbers.{line_end};
ghost use Rattle.mpt_script.specs.Printed.{count_text, disk_text, expander_text, expanders_of, line_text, schedule_text};

use crate::line::Line;
use crate::schedule::Schedule;
use mpt_text::{OutOfMemory, Text};
use mpt_trace::{DiskSpec, push_address, push_choice, push_input};
use std::alloc::Global;

/// The text of a schedule, each line with lower-case digits and without a count of 1. The text reads as
/// the schedule.
pub fn print_schedule(alloc: Global, schedule: &Schedule) -> Result<Text, OutOfMemory>
    ensures text { IfOk result (λ text. text ≡ schedule_text 0 schedule.now) }
    ensures reads_back { IfOk result (λ text. schedule_of text ≡ Ok schedule.now) }
{
    let mut text = Text::new(alloc);
    let mut expanders = 0;
    let lines = schedule.lines();
    for line in lines {
        push_line(&mut text, expanders, line)?;
        text.push(b"\n")?;
        expanders += expanders_of(line);
    }
    Ok(text)
}

// Adds a line after so many expanders, without the end of the line.
fn push_line(text: &mut Text, expanders: u64, line: &Line) -> Result<(), OutOfMemory>
    ensures { OnOk result (text.new ≡ text.old ++ line_text expanders line.now) }
{
    match line {
        Line::Queues(queues) => {
            text.push(b"queues ")?;
            text.push_decimal(u64::from(*queues))
        }
        Line::Disk(disk) => push_disk(text, disk),
        Line::Expander { phys } => push_expander(text, expanders, *phys),
        Line::Input(input) => push_input(text, input),
        Line::Choice { choice, count } => {
            push_choice(text, *choice)?;
            push_count(text, *count)
        }
        Line::Drain => text.push(b"drain"),
    }
}

/// Adds a disk's line.
pub(crate) fn push_disk(text: &mut Text, disk: &DiskSpec) -> Result<(), OutOfMemory>
    ensures { OnOk result (text.new ≡ text.old ++ disk_text disk.now) }
{
    text.push(b"disk ")?;
    push_address(text, disk.address)?;
    text.push(b" ")?;
    text.push_decimal(u64::from(disk.blocks))
}

/// Adds the line of the expander of this number.
pub(crate) fn push_expander(text: &mut Text, number: u64, phys: u8) -> Result<(), OutOfMemory>
    ensures { OnOk result (text.new ≡ text.old ++ expander_text number phys) }
{
    text.push(b"expander ")?;
    text.push_decimal(number)?;
    text.push(b" ")?;
    text.push_decimal(u64::from(phys))
}

// Adds a choice's count, unless it is 1.
fn push_count(text: &mut Text, count: u8) -> Result<(), OutOfMemory>
    ensures { OnOk result (text.new ≡ text.old ++ count_text count) }
{
    if count == 1 {
        return Ok(());
    }
    text.push(b" ")?;
    text.push_decimal(u64::from(count))
}

// 1 for an expander's line.
fn expanders_of(line: &Line) -> u64
    ensures value { result ≡ expanders_of line.now }
    ensures small { result ≤ 1 }
{
    match line {
        Line::Expander { .. } => 1,
        _ => 0,
    }
}
