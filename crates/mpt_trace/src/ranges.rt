//! The numbers of every value fit the words that print them: a number is as great as its type allows
//! at most. Reading a number is all that each function does, since its range comes with its type.
ghost use Rattle.std.specs.List.{All};
ghost use Rattle.hex.specs.Hex.{IsBytes};
ghost use Rattle.mpt_trace.specs.Command.{FitsItsCdb};
ghost use Rattle.mpt_trace.specs.Reading.{IsData};
ghost use Rattle.mpt_trace.specs.ReadingSchedule.{IsChoice, IsCommand, IsInput};
ghost use Rattle.mpt_trace.specs.ReadingItems.{IsAsk, IsBack, IsDown, IsFrame, IsItem, IsLane, IsOut, IsOutcome, IsResult, IsTask, IsTell, IsUp};
ghost use Rattle.mpt_trace.specs.ReadingEntries.{IsCall, IsEntry, IsTargetOutcome, MovesItsKind};

use crate::choice::Choice;
use crate::command_form::CommandForm;
use crate::entry::Entry;
use crate::input::Input;
use crate::item::{Ask, Back, Down, Item, Out, Tell, Up};
use crate::lane::LaneName;
use crate::outcome::{Outcome, TargetOutcome};
use crate::refusal::RefusedCall;
use scsi_disk::{Bytes, Command, ScsiResult};

/// Every entry fits the words of its line, where its item, if it has one, is of its lane's kind. It
/// changes nothing: what it promises is a law.
pub fn entry_fits(e: &Entry)
    ensures { MovesItsKind e.now → IsEntry e.now }
{
    match e {
        Entry::Given(input) => input_fits(input),
        Entry::Idle(choice) => choice_fits(*choice),
        Entry::Put { lane, item } | Entry::Take { lane, item } => {
            lane_fits(*lane);
            item_fits(item);
        }
        Entry::Bind {
            handle,
            address,
            plug,
        } => {
            let _ = (*handle, *address, *plug);
        }
        Entry::Unbind { handle } => {
            let _handle = *handle;
        }
        Entry::Run { address, tag } => {
            let _ = (*address, *tag);
        }
        Entry::Ready { address, handle } | Entry::Lost { address, handle } => {
            let _ = (*address, *handle);
        }
        Entry::Accept { n, address, smid } => {
            let _ = (*n, *address, *smid);
        }
        Entry::RefuseSubmit { n, .. } | Entry::AbortEnd { n, .. } => {
            let _n = *n;
        }
        Entry::Refuse { call, .. } => call_fits(*call),
        Entry::Answer { n, outcome } => {
            let _n = *n;
            outcome_fits(outcome);
        }
        Entry::TargetEnd { address, outcome } => {
            let _address = *address;
            target_outcome_fits(*outcome);
        }
        Entry::UnbindAll | Entry::HostUp | Entry::ResetDone => {}
    }
}

/// So do all entries of a trace.
pub fn entries_fit(entries: &[Entry])
    ensures { All MovesItsKind entries.now → All IsEntry entries.now }
{
    for e in entries {
        entry_fits(e);
    }
}

fn call_fits(call: RefusedCall)
    ensures { IsCall call }
{
    match call {
        RefusedCall::Abort(n) => {
            let _n = n;
        }
        RefusedCall::TargetReset(address)
        | RefusedCall::Plug(address)
        | RefusedCall::Unplug(address) => {
            let _address = address;
        }
        RefusedCall::Start | RefusedCall::Reset | RefusedCall::UnitReset => {}
    }
}

fn bytes_fit(bytes: &[u8])
    ensures { IsBytes bytes.now }
{}

fn payload_fits(payload: &Bytes)
    ensures { IsData payload.now }
{
    bytes_fit(payload.as_slice());
}

// The numbers of a form fit the fields of its CDB.
pub(crate) fn form_fits_its_cdb(form: &CommandForm)
    ensures { FitsItsCdb form.now }
{
    match form {
        CommandForm::Inquiry { len } => {
            let _len = *len;
        }
        CommandForm::Read { blocks, .. }
        | CommandForm::Write { blocks, .. }
        | CommandForm::Read16 { blocks, .. }
        | CommandForm::Write16 { blocks, .. } => {
            let _blocks = *blocks;
        }
        CommandForm::Tur | CommandForm::Capacity | CommandForm::Raw { .. } => {}
    }
}

fn command_fits(form: &CommandForm)
    ensures { IsCommand form.now }
{
    match form {
        CommandForm::Inquiry { len } => {
            let _len = *len;
        }
        CommandForm::Read { lba, blocks } => {
            let _ = (*lba, *blocks);
        }
        CommandForm::Write { lba, blocks, fill } => {
            let _ = (*lba, *blocks, *fill);
        }
        CommandForm::Read16 { lba, blocks } => {
            let _ = (*lba, *blocks);
        }
        CommandForm::Write16 { lba, blocks, fill } => {
            let _ = (*lba, *blocks, *fill);
        }
        CommandForm::Raw { cdb, len } => {
            bytes_fit(cdb.as_slice());
            let _len = *len;
        }
        CommandForm::Tur | CommandForm::Capacity => {}
    }
}

fn input_fits(input: &Input)
    ensures { IsInput input.now }
{
    match input {
        Input::Submit { n, address, form } => {
            let _ = (*n, *address);
            command_fits(form);
        }
        Input::Abort { n } => {
            let _n = *n;
        }
        Input::TargetReset { address } | Input::Unplug { address } => {
            let _address = *address;
        }
        Input::Plug {
            address,
            expander,
            phy,
        } => {
            let _ = (*address, *expander, *phy);
        }
        Input::Start | Input::Reset | Input::UnitReset => {}
    }
}

fn choice_fits(choice: Choice)
    ensures { IsChoice choice }
{
    match choice {
        Choice::HostTakeOn(queue) | Choice::IocPutOn(queue) => {
            let _queue = queue;
        }
        Choice::FabricRun(tag) => {
            let _tag = tag;
        }
        _ => {}
    }
}

fn lane_fits(lane: LaneName)
    ensures { IsLane lane }
{
    match lane {
        LaneName::UpOn(number) | LaneName::Ask(number) | LaneName::Tell(number) => {
            let _number = number;
        }
        _ => {}
    }
}

fn item_fits(item: &Item)
    ensures { IsItem item.now }
{
    match item {
        Item::Down(item) => down_fits(item),
        Item::Up(item) => up_fits(item),
        Item::Out(item) => out_fits(item),
        Item::Back(item) => back_fits(item),
        Item::Ask(item) => ask_fits(item),
        Item::Tell(item) => tell_fits(item),
    }
}

fn down_fits(item: &Down)
    ensures { IsDown item.now }
{
    match item {
        Down::Write { reg, value } => {
            let _ = (*reg, *value);
        }
        Down::Read { reg } => {
            let _reg = *reg;
        }
        Down::Post {
            descriptor,
            frame,
            payload,
        } => {
            let _descriptor = *descriptor;
            bytes_fit(frame);
            payload_fits(payload);
        }
        Down::Return { address, index } => {
            let _ = (*address, *index);
        }
        Down::Stop => {}
    }
}

fn frame_fits(frame: &Option<[u8; 128]>)
    ensures { IsFrame frame.now }
{
    if let Some(frame) = frame {
        bytes_fit(frame);
    }
}

fn up_fits(item: &Up)
    ensures { IsUp item.now }
{
    match item {
        Up::Value(value) => {
            let _value = *value;
        }
        Up::Reply {
            descriptor,
            frame,
            page,
            sense,
        } => {
            let _descriptor = *descriptor;
            frame_fits(frame);
            payload_fits(page);
            payload_fits(sense);
        }
        Up::Mark { generation } => {
            let _generation = *generation;
        }
        Up::Calm => {}
    }
}

fn task_fits(command: &Command)
    ensures { IsTask command.now }
{
    let _lun = command.lun;
    let _len = command.len;
    cdb_fits(command.cdb.as_slice());
    payload_fits(&command.payload);
}

fn cdb_fits(cdb: &[u8])
    ensures { IsData cdb.now }
{
    bytes_fit(cdb);
    let _len = cdb.len();
}

fn out_fits(item: &Out)
    ensures { IsOut item.now }
{
    match item {
        Out::Task {
            tag,
            address,
            command,
        } => {
            let _ = (*tag, *address);
            task_fits(command);
        }
        Out::Abort { smid, task } => {
            let _ = (*smid, *task);
        }
        Out::TargetReset { smid, address } => {
            let _ = (*smid, *address);
        }
        Out::Link { generation } => {
            let _generation = *generation;
        }
        Out::Discover | Out::Stop => {}
    }
}

fn result_fits(answer: &ScsiResult)
    ensures { IsResult answer.now }
{
    let _status = answer.status;
    payload_fits(&answer.payload);
    payload_fits(&answer.sense);
}

fn back_fits(item: &Back)
    ensures { IsBack item.now }
{
    match item {
        Back::Result { tag, result } => {
            let _tag = *tag;
            result_fits(result);
        }
        Back::Gone { tag } | Back::Terminated { tag } => {
            let _tag = *tag;
        }
        Back::Aborted { smid, .. } => {
            let _smid = *smid;
        }
        Back::Cleared { smid, count } => {
            let _ = (*smid, *count);
        }
        Back::Plugged {
            address,
            plug,
            expander,
            phy,
        }
        | Back::Unplugged {
            address,
            plug,
            expander,
            phy,
        } => {
            let _ = (*address, *plug, *expander, *phy);
        }
        Back::Linked { generation } => {
            let _generation = *generation;
        }
        Back::Discovered | Back::Calm => {}
    }
}

fn ask_fits(item: &Ask)
    ensures { IsAsk item.now }
{
    match item {
        Ask::Line(line) => input_fits(line),
        Ask::Bye => {}
    }
}

fn outcome_fits(outcome: &Outcome)
    ensures { IsOutcome outcome.now }
{
    match outcome {
        Outcome::Done(result) => result_fits(result),
        Outcome::Gone | Outcome::Terminated | Outcome::Reset => {}
    }
}

fn target_outcome_fits(outcome: TargetOutcome)
    ensures { IsTargetOutcome outcome }
{
    match outcome {
        TargetOutcome::Done(count) => {
            let _count = count;
        }
        TargetOutcome::Reset => {}
    }
}

fn tell_fits(item: &Tell)
    ensures { IsTell item.now }
{
    match item {
        Tell::Answer { n, outcome } => {
            let _n = *n;
            outcome_fits(outcome);
        }
        Tell::RefuseSubmit { n, .. } => {
            let _n = *n;
        }
    }
}
