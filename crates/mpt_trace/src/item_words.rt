//! Lanes and what they carry, in words.
ghost use Rattle.std.specs.Prelude.{◌≡◌, ◌++◌, OnOk, codes, decimal};
ghost use Rattle.hex.specs.Hex.{encode_lower};
ghost use Rattle.mpt_text.specs.Words.{bytes_text, hex_number};
ghost use Rattle.mpt_trace.specs.Numbers.{address_text, descriptor_text};
ghost use Rattle.mpt_trace.specs.Items.{answer_text, ask_text, back_text, cause_text, down_text, frame_text, item_text, lane_text, out_text, outcome_text, plug_text, refuse_submit_text, result_text, task_text, tell_text, up_text};

use crate::item::{Ask, Back, Down, Item, Out, Tell, Up};
use crate::lane::LaneName;
use crate::numbers::{
    push_address, push_addressed, push_byte, push_bytes, push_descriptor, push_dword, push_half,
    push_number, push_place,
};
use crate::outcome::Outcome;
use crate::refusal::Refusal;
use crate::schedule_words::push_input;
use mpi_names::{Address, Smid, Tag};
use mpt_text::{OutOfMemory, Text};
use scsi_disk::{Command, ScsiResult};

// Adds a lane's name.
pub(crate) fn push_lane(text: &mut Text, lane: LaneName) -> Result<(), OutOfMemory>
    ensures { OnOk result (text.new ≡ text.old ++ lane_text lane) }
{
    match lane {
        LaneName::Down => text.push(b"down"),
        LaneName::Up => text.push(b"up"),
        LaneName::UpOn(queue) => push_number(text, b"up", u64::from(queue)),
        LaneName::Out => text.push(b"out"),
        LaneName::Back => text.push(b"back"),
        LaneName::Ask(i) => push_number(text, b"ask ", u64::from(i)),
        LaneName::Tell(i) => push_number(text, b"tell ", u64::from(i)),
    }
}

// Adds an item.
pub(crate) fn push_item(text: &mut Text, item: &Item) -> Result<(), OutOfMemory>
    ensures { OnOk result (text.new ≡ text.old ++ item_text item.now) }
{
    match item {
        Item::Down(item) => push_down(text, item),
        Item::Up(item) => push_up(text, item),
        Item::Out(item) => push_out(text, item),
        Item::Back(item) => push_back(text, item),
        Item::Ask(item) => push_ask(text, item),
        Item::Tell(item) => push_tell(text, item),
    }
}

fn push_down(text: &mut Text, item: &Down) -> Result<(), OutOfMemory>
    ensures { OnOk result (text.new ≡ text.old ++ down_text item.now) }
{
    match item {
        Down::Write { reg, value } => push_write(text, *reg, *value),
        Down::Read { reg } => push_half(text, b"read ", *reg),
        Down::Post {
            descriptor,
            frame,
            payload,
        } => push_post(text, *descriptor, frame, payload.as_slice()),
        Down::Return { address, index } => push_return(text, *address, *index),
        Down::Stop => text.push(b"stop"),
    }
}

fn push_write(text: &mut Text, reg: u16, value: u32) -> Result<(), OutOfMemory>
    ensures { OnOk result (text.new ≡ text.old ++ (codes "write " ++ hex_number 2 reg ++ codes " " ++ hex_number 4 value)) }
{
    push_half(text, b"write ", reg)?;
    push_dword(text, b" ", value)
}

fn push_return(text: &mut Text, address: u32, index: u16) -> Result<(), OutOfMemory>
    ensures { OnOk result (text.new ≡ text.old ++ (codes "return " ++ hex_number 4 address ++ codes " " ++ hex_number 2 index)) }
{
    push_dword(text, b"return ", address)?;
    push_half(text, b" ", index)
}

fn push_post(
    text: &mut Text,
    descriptor: u64,
    frame: &[u8; 128],
    payload: &[u8],
) -> Result<(), OutOfMemory>
    ensures { OnOk result (text.new ≡ text.old ++ (codes "post " ++ descriptor_text descriptor ++ codes " " ++ encode_lower frame.now ++ codes " " ++ bytes_text payload.now)) }
{
    text.push(b"post ")?;
    push_descriptor(text, descriptor)?;
    text.push(b" ")?;
    text.push_digits(frame)?;
    push_bytes(text, b" ", payload)
}

fn push_up(text: &mut Text, item: &Up) -> Result<(), OutOfMemory>
    ensures { OnOk result (text.new ≡ text.old ++ up_text item.now) }
{
    match item {
        Up::Value(value) => push_dword(text, b"value ", *value),
        Up::Reply {
            descriptor,
            frame,
            page,
            sense,
        } => push_reply(text, *descriptor, frame, page.as_slice(), sense.as_slice()),
        Up::Mark { generation } => push_number(text, b"mark ", u64::from(*generation)),
        Up::Calm => text.push(b"calm"),
    }
}

fn push_reply(
    text: &mut Text,
    descriptor: u64,
    frame: &Option<[u8; 128]>,
    page: &[u8],
    sense: &[u8],
) -> Result<(), OutOfMemory>
    ensures { OnOk result (text.new ≡ text.old ++ (codes "reply " ++ descriptor_text descriptor ++ codes " " ++ frame_text frame.now ++ codes " " ++ bytes_text page.now ++ codes " " ++ bytes_text sense.now)) }
{
    text.push(b"reply ")?;
    push_descriptor(text, descriptor)?;
    text.push(b" ")?;
    push_frame(text, frame)?;
    push_bytes(text, b" ", page)?;
    push_bytes(text, b" ", sense)
}

fn push_frame(text: &mut Text, frame: &Option<[u8; 128]>) -> Result<(), OutOfMemory>
    ensures { OnOk result (text.new ≡ text.old ++ frame_text frame.now) }
{
    match frame {
        None => text.push(b"-"),
        Some(frame) => text.push_digits(frame),
    }
}

fn push_out(text: &mut Text, item: &Out) -> Result<(), OutOfMemory>
    ensures { OnOk result (text.new ≡ text.old ++ out_text item.now) }
{
    match item {
        Out::Task {
            tag,
            address,
            command,
        } => push_task(text, *tag, *address, command),
        Out::Abort { smid, task } => {
            push_pair(text, b"abort ", u64::from(*smid), u64::from(*task))
        }
        Out::TargetReset { smid, address } => push_target_reset(text, *smid, *address),
        Out::Discover => text.push(b"discover"),
        Out::Link { generation } => push_number(text, b"link ", u64::from(*generation)),
        Out::Stop => text.push(b"stop"),
    }
}

fn push_task(
    text: &mut Text,
    tag: Tag,
    address: Address,
    command: &Command,
) -> Result<(), OutOfMemory>
    ensures { OnOk result (text.new ≡ text.old ++ (codes "task " ++ decimal tag ++ codes " " ++ address_text address ++ codes " " ++ task_text command.now)) }
{
    push_number(text, b"task ", u64::from(tag))?;
    push_addressed(text, b" ", address)?;
    text.push(b" ")?;
    push_command(text, command)
}

fn push_target_reset(text: &mut Text, smid: Smid, address: Address) -> Result<(), OutOfMemory>
    ensures { OnOk result (text.new ≡ text.old ++ (codes "treset " ++ decimal smid ++ codes " " ++ address_text address)) }
{
    push_number(text, b"treset ", u64::from(smid))?;
    push_addressed(text, b" ", address)
}

// Adds a word, with the space after it, and two numbers in decimal.
fn push_pair(text: &mut Text, word: &[u8], first: u64, second: u64) -> Result<(), OutOfMemory>
    ensures { OnOk result (text.new ≡ text.old ++ (word.now ++ decimal first ++ codes " " ++ decimal second)) }
{
    push_number(text, word, first)?;
    push_number(text, b" ", second)
}

// Adds a command of a task: LUN, CDB, length and data.
fn push_command(text: &mut Text, command: &Command) -> Result<(), OutOfMemory>
    ensures { OnOk result (text.new ≡ text.old ++ task_text command.now) }
{
    text.push_hex(command.lun, 8)?;
    push_bytes(text, b" ", command.cdb.as_slice())?;
    push_number(text, b" ", u64::from(command.len))?;
    push_bytes(text, b" ", command.payload.as_slice())
}

fn push_back(text: &mut Text, item: &Back) -> Result<(), OutOfMemory>
    ensures { OnOk result (text.new ≡ text.old ++ back_text item.now) }
{
    match item {
        Back::Result { tag, result } => {
            push_number(text, b"result ", u64::from(*tag))?;
            text.push(b" ")?;
            push_result(text, result)
        }
        Back::Gone { tag } => push_number(text, b"gone ", u64::from(*tag)),
        Back::Terminated { tag } => push_number(text, b"terminated ", u64::from(*tag)),
        Back::Aborted { smid, found } => {
            push_number(text, b"aborted ", u64::from(*smid))?;
            text.push(if *found { b" 1" } else { b" 0" })
        }
        Back::Cleared { smid, count } => {
            push_pair(text, b"cleared ", u64::from(*smid), u64::from(*count))
        }
        Back::Plugged {
            address,
            plug,
            expander,
            phy,
        } => {
            text.push(b"plugged ")?;
            push_plug(text, *address, *plug, *expander, *phy)
        }
        Back::Unplugged {
            address,
            plug,
            expander,
            phy,
        } => {
            text.push(b"unplugged ")?;
            push_plug(text, *address, *plug, *expander, *phy)
        }
        Back::Discovered => text.push(b"discovered"),
        Back::Linked { generation } => push_number(text, b"linked ", u64::from(*generation)),
        Back::Calm => text.push(b"calm"),
    }
}

fn push_plug(
    text: &mut Text,
    address: Address,
    plug: u32,
    expander: u8,
    phy: u8,
) -> Result<(), OutOfMemory>
    ensures { OnOk result (text.new ≡ text.old ++ plug_text address plug expander phy) }
{
    push_address(text, address)?;
    push_number(text, b" ", u64::from(plug))?;
    text.push(b" ")?;
    push_place(text, expander, phy)
}

// What a disk answered: status, data and sense data.
fn push_result(text: &mut Text, answer: &ScsiResult) -> Result<(), OutOfMemory>
    ensures { OnOk result (text.new ≡ text.old ++ result_text answer.now) }
{
    push_byte(text, answer.status)?;
    push_bytes(text, b" ", answer.payload.as_slice())?;
    push_bytes(text, b" ", answer.sense.as_slice())
}

fn push_ask(text: &mut Text, item: &Ask) -> Result<(), OutOfMemory>
    ensures { OnOk result (text.new ≡ text.old ++ ask_text item.now) }
{
    match item {
        Ask::Line(line) => push_input(text, line),
        Ask::Bye => text.push(b"bye"),
    }
}

fn push_tell(text: &mut Text, item: &Tell) -> Result<(), OutOfMemory>
    ensures { OnOk result (text.new ≡ text.old ++ tell_text item.now) }
{
    match item {
        Tell::Answer { n, outcome } => push_answer(text, *n, outcome),
        Tell::RefuseSubmit { n, cause } => push_refuse_submit(text, *n, *cause),
    }
}

// Adds the answer to a submission.
pub(crate) fn push_answer(text: &mut Text, n: u32, outcome: &Outcome) -> Result<(), OutOfMemory>
    ensures { OnOk result (text.new ≡ text.old ++ answer_text n outcome.now) }
{
    push_number(text, b"answer ", u64::from(n))?;
    text.push(b" ")?;
    push_outcome(text, outcome)
}

fn push_outcome(text: &mut Text, outcome: &Outcome) -> Result<(), OutOfMemory>
    ensures { OnOk result (text.new ≡ text.old ++ outcome_text outcome.now) }
{
    match outcome {
        Outcome::Done(result) => {
            text.push(b"done ")?;
            push_result(text, result)
        }
        Outcome::Gone => text.push(b"gone"),
        Outcome::Terminated => text.push(b"terminated"),
        Outcome::Reset => text.push(b"reset"),
    }
}

// Adds a refused submission.
pub(crate) fn push_refuse_submit(text: &mut Text, n: u32, cause: Refusal) -> Result<(), OutOfMemory>
    ensures { OnOk result (text.new ≡ text.old ++ refuse_submit_text n cause) }
{
    push_number_and_cause(text, b"refuse submit ", n, cause)
}

fn push_number_and_cause(
    text: &mut Text,
    word: &[u8],
    n: u32,
    cause: Refusal,
) -> Result<(), OutOfMemory>
    ensures { OnOk result (text.new ≡ text.old ++ (word.now ++ decimal n ++ codes " " ++ cause_text cause)) }
{
    push_number(text, word, u64::from(n))?;
    text.push(b" ")?;
    push_cause(text, cause)
}

// Adds the cause of a refusal.
pub(crate) fn push_cause(text: &mut Text, cause: Refusal) -> Result<(), OutOfMemory>
    ensures { OnOk result (text.new ≡ text.old ++ cause_text cause) }
{
    match cause {
        Refusal::NumberUsed => text.push(b"number-used"),
        Refusal::NotOperational => text.push(b"not-operational"),
        Refusal::NoDevice => text.push(b"no-device"),
        Refusal::BadLength => text.push(b"bad-length"),
        Refusal::NoIdentifier => text.push(b"no-identifier"),
        Refusal::NotOpen => text.push(b"not-open"),
        Refusal::AbortOpen => text.push(b"abort-open"),
        Refusal::AlreadyStarted => text.push(b"already-started"),
        Refusal::NotStarted => text.push(b"not-started"),
        Refusal::AlreadyResetting => text.push(b"already-resetting"),
        Refusal::Occupied => text.push(b"occupied"),
        Refusal::AlreadyPlugged => text.push(b"already-plugged"),
        Refusal::PlugsSpent => text.push(b"plugs-spent"),
        Refusal::NotPlugged => text.push(b"not-plugged"),
    }
}
