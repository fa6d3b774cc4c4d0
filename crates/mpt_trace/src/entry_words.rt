//! The lines of a trace.
ghost use Rattle.std.specs.Prelude.{◌≡◌, ◌++◌, IfOk, OnOk, codes, decimal};
ghost use Rattle.mpt_trace.specs.Numbers.{address_text, handle_text};
ghost use Rattle.mpt_trace.specs.Items.{cause_text, item_text, lane_text};
ghost use Rattle.mpt_trace.specs.Entries.{abort_text, call_text, entry_line, is_in_show, target_text, words_of_entry};

use crate::entry::Entry;
use crate::item::Item;
use crate::item_words::{push_answer, push_cause, push_item, push_lane, push_refuse_submit};
use crate::lane::LaneName;
use crate::numbers::{push_address, push_addressed, push_handle, push_number};
use crate::outcome::{AbortOutcome, TargetOutcome};
use crate::refusal::{Refusal, RefusedCall};
use crate::schedule_words::{push_choice, push_input};
use mpi_names::{Address, Handle, Smid, Tag};
use mpt_text::{OutOfMemory, Text};
use std::alloc::Global;

/// The line of an entry in a report, with the end of the line; or OutOfMemory.
pub fn entry_text(alloc: Global, e: &Entry) -> Result<Text, OutOfMemory>
    ensures { IfOk result (λ text. text ≡ entry_line e.now) }
{
    let mut text = Text::new(alloc);
    push_entry(&mut text, e)?;
    text.push(b"\n")?;
    Ok(text)
}

/// Whether the short report shows the entry: all but inputs, idle choices, puts and takes.
pub fn in_show(e: &Entry) -> bool
    ensures { result ≡ is_in_show e.now }
{
    !matches!(
        e,
        Entry::Given(_) | Entry::Idle(_) | Entry::Put { .. } | Entry::Take { .. }
    )
}

fn push_entry(text: &mut Text, e: &Entry) -> Result<(), OutOfMemory>
    ensures { OnOk result (text.new ≡ text.old ++ words_of_entry e.now) }
{
    match e {
        Entry::Given(input) => {
            text.push(b"in ")?;
            push_input(text, input)
        }
        Entry::Idle(choice) => {
            text.push(b"idle ")?;
            push_choice(text, *choice)
        }
        Entry::Put { lane, item } => push_move(text, b"put ", *lane, item),
        Entry::Take { lane, item } => push_move(text, b"take ", *lane, item),
        Entry::Bind {
            handle,
            address,
            plug,
        } => push_bind(text, *handle, *address, *plug),
        Entry::Unbind { handle } => {
            text.push(b"unbind ")?;
            push_handle(text, *handle)
        }
        Entry::UnbindAll => text.push(b"unbind all"),
        Entry::Run { address, tag } => push_run(text, *address, *tag),
        Entry::HostUp => text.push(b"up"),
        Entry::Ready { address, handle } => push_device(text, b"ready ", *address, *handle),
        Entry::Lost { address, handle } => push_device(text, b"lost ", *address, *handle),
        Entry::Accept { n, address, smid } => push_accept(text, *n, *address, *smid),
        Entry::RefuseSubmit { n, cause } => push_refuse_submit(text, *n, *cause),
        Entry::Refuse { call, cause } => push_refuse(text, *call, *cause),
        Entry::Answer { n, outcome } => push_answer(text, *n, outcome),
        Entry::AbortEnd { n, outcome } => push_abort_end(text, *n, *outcome),
        Entry::TargetEnd { address, outcome } => push_target_end(text, *address, *outcome),
        Entry::ResetDone => text.push(b"reset done"),
    }
}

fn push_move(text: &mut Text, word: &[u8], lane: LaneName, item: &Item) -> Result<(), OutOfMemory>
    ensures { OnOk result (text.new ≡ text.old ++ (word.now ++ lane_text lane ++ codes " " ++ item_text item.now)) }
{
    text.push(word)?;
    push_lane(text, lane)?;
    text.push(b" ")?;
    push_item(text, item)
}

fn push_bind(
    text: &mut Text,
    handle: Handle,
    address: Address,
    plug: u32,
) -> Result<(), OutOfMemory>
    ensures { OnOk result (text.new ≡ text.old ++ (codes "bind " ++ handle_text handle ++ codes " " ++ address_text address ++ codes " " ++ decimal plug)) }
{
    text.push(b"bind ")?;
    push_handle(text, handle)?;
    push_addressed(text, b" ", address)?;
    push_number(text, b" ", u64::from(plug))
}

fn push_run(text: &mut Text, address: Address, tag: Tag) -> Result<(), OutOfMemory>
    ensures { OnOk result (text.new ≡ text.old ++ (codes "run " ++ address_text address ++ codes " " ++ decimal tag)) }
{
    push_addressed(text, b"run ", address)?;
    push_number(text, b" ", u64::from(tag))
}

fn push_accept(text: &mut Text, n: u32, address: Address, smid: Smid) -> Result<(), OutOfMemory>
    ensures { OnOk result (text.new ≡ text.old ++ (codes "accept " ++ decimal n ++ codes " " ++ address_text address ++ codes " " ++ decimal smid)) }
{
    push_number(text, b"accept ", u64::from(n))?;
    push_addressed(text, b" ", address)?;
    push_number(text, b" ", u64::from(smid))
}

fn push_device(
    text: &mut Text,
    word: &[u8],
    address: Address,
    handle: Handle,
) -> Result<(), OutOfMemory>
    ensures { OnOk result (text.new ≡ text.old ++ (word.now ++ address_text address ++ codes " " ++ handle_text handle)) }
{
    push_addressed(text, word, address)?;
    text.push(b" ")?;
    push_handle(text, handle)
}

fn push_refuse(text: &mut Text, call: RefusedCall, cause: Refusal) -> Result<(), OutOfMemory>
    ensures { OnOk result (text.new ≡ text.old ++ (codes "refuse " ++ call_text call ++ codes " " ++ cause_text cause)) }
{
    text.push(b"refuse ")?;
    push_call(text, call)?;
    text.push(b" ")?;
    push_cause(text, cause)
}

fn push_call(text: &mut Text, call: RefusedCall) -> Result<(), OutOfMemory>
    ensures { OnOk result (text.new ≡ text.old ++ call_text call) }
{
    match call {
        RefusedCall::Start => text.push(b"start"),
        RefusedCall::Reset => text.push(b"reset"),
        RefusedCall::UnitReset => text.push(b"unit"),
        RefusedCall::Abort(n) => push_number(text, b"abort ", u64::from(n)),
        RefusedCall::TargetReset(address) => push_addressed(text, b"treset ", address),
        RefusedCall::Plug(address) => push_addressed(text, b"plug ", address),
        RefusedCall::Unplug(address) => push_addressed(text, b"unplug ", address),
    }
}

fn push_abort_end(text: &mut Text, n: u32, outcome: AbortOutcome) -> Result<(), OutOfMemory>
    ensures { OnOk result (text.new ≡ text.old ++ (codes "abort " ++ decimal n ++ codes " " ++ abort_text outcome)) }
{
    push_number(text, b"abort ", u64::from(n))?;
    match outcome {
        AbortOutcome::Stopped => text.push(b" stopped"),
        AbortOutcome::NotFound => text.push(b" not-found"),
        AbortOutcome::Reset => text.push(b" reset"),
    }
}

fn push_target_end(
    text: &mut Text,
    address: Address,
    outcome: TargetOutcome,
) -> Result<(), OutOfMemory>
    ensures { OnOk result (text.new ≡ text.old ++ (codes "treset " ++ address_text address ++ codes " " ++ target_text outcome)) }
{
    push_addressed(text, b"treset ", address)?;
    match outcome {
        TargetOutcome::Done(count) => push_number(text, b" done ", u64::from(count)),
        TargetOutcome::Reset => text.push(b" reset"),
    }
}
