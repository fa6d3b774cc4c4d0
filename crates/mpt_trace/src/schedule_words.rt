//! The lines of a schedule: inputs and choices.
ghost use Rattle.std.specs.Prelude.{◌≡◌, ◌++◌, OnOk, codes, decimal};
ghost use Rattle.hex.specs.Hex.{encode_lower};
ghost use Rattle.mpt_trace.specs.Numbers.{address_text, byte_text, place_text};
ghost use Rattle.mpt_trace.specs.Schedule.{blocks_text, choice_line, command_text, input_line};

use crate::choice::Choice;
use crate::command_form::CommandForm;
use crate::input::Input;
use crate::numbers::{push_address, push_addressed, push_byte, push_number, push_place};
use mpi_names::Address;
use mpt_text::{OutOfMemory, Text};

/// Adds an input's line in a schedule, without the end of the line.
/// Where memory is wanting a part of it may have been added.
pub fn push_input(text: &mut Text, input: &Input) -> Result<(), OutOfMemory>
    ensures { OnOk result (text.new ≡ text.old ++ input_line input.now) }
{
    match input {
        Input::Start => text.push(b"start"),
        Input::Submit { n, address, form } => push_submit(text, *n, *address, form),
        Input::Abort { n } => push_number(text, b"abort ", u64::from(*n)),
        Input::TargetReset { address } => push_addressed(text, b"treset ", *address),
        Input::Reset => text.push(b"reset"),
        Input::UnitReset => text.push(b"unit"),
        Input::Plug {
            address,
            expander,
            phy,
        } => push_plug(text, *address, *expander, *phy),
        Input::Unplug { address } => push_addressed(text, b"unplug ", *address),
    }
}

fn push_submit(
    text: &mut Text,
    n: u32,
    address: Address,
    form: &CommandForm,
) -> Result<(), OutOfMemory>
    ensures { OnOk result (text.new ≡ text.old ++ (codes "submit " ++ decimal n ++ codes " " ++ address_text address ++ codes " " ++ command_text form.now)) }
{
    push_number(text, b"submit ", u64::from(n))?;
    text.push(b" ")?;
    push_address(text, address)?;
    text.push(b" ")?;
    push_command(text, form)
}

fn push_plug(text: &mut Text, address: Address, expander: u8, phy: u8) -> Result<(), OutOfMemory>
    ensures { OnOk result (text.new ≡ text.old ++ (codes "plug " ++ address_text address ++ codes " " ++ place_text expander phy)) }
{
    push_addressed(text, b"plug ", address)?;
    text.push(b" ")?;
    push_place(text, expander, phy)
}

/// Adds a command's words in a schedule.
/// Where memory is wanting a part of it may have been added.
pub fn push_command(text: &mut Text, form: &CommandForm) -> Result<(), OutOfMemory>
    ensures { OnOk result (text.new ≡ text.old ++ command_text form.now) }
{
    match form {
        CommandForm::Tur => text.push(b"tur"),
        CommandForm::Inquiry { len } => push_number(text, b"inquiry ", u64::from(*len)),
        CommandForm::Capacity => text.push(b"capacity"),
        CommandForm::Read { lba, blocks } => {
            push_blocks(text, b"read ", u64::from(*lba), *blocks)
        }
        CommandForm::Write { lba, blocks, fill } => {
            push_filled_blocks(text, b"write ", u64::from(*lba), *blocks, *fill)
        }
        CommandForm::Read16 { lba, blocks } => push_blocks(text, b"read16 ", *lba, *blocks),
        CommandForm::Write16 { lba, blocks, fill } => {
            push_filled_blocks(text, b"write16 ", *lba, *blocks, *fill)
        }
        CommandForm::Raw { cdb, len } => push_raw(text, cdb.as_slice(), *len),
    }
}

fn push_raw(text: &mut Text, cdb: &[u8], len: u32) -> Result<(), OutOfMemory>
    ensures { OnOk result (text.new ≡ text.old ++ (codes "raw " ++ encode_lower cdb.now ++ codes " " ++ decimal len)) }
{
    text.push(b"raw ")?;
    text.push_digits(cdb)?;
    push_number(text, b" ", u64::from(len))
}

fn push_filled_blocks(
    text: &mut Text,
    name: &[u8],
    lba: u64,
    blocks: u16,
    fill: u8,
) -> Result<(), OutOfMemory>
    ensures { OnOk result (text.new ≡ text.old ++ (name.now ++ blocks_text lba blocks ++ codes " " ++ byte_text fill)) }
{
    push_blocks(text, name, lba, blocks)?;
    text.push(b" ")?;
    push_byte(text, fill)
}

fn push_blocks(text: &mut Text, name: &[u8], lba: u64, blocks: u16) -> Result<(), OutOfMemory>
    ensures { OnOk result (text.new ≡ text.old ++ (name.now ++ blocks_text lba blocks)) }
{
    push_number(text, name, lba)?;
    push_number(text, b" ", u64::from(blocks))
}

/// Adds a choice's line in a schedule, without a count and without the end of the line.
/// Where memory is wanting a part of it may have been added.
pub fn push_choice(text: &mut Text, choice: Choice) -> Result<(), OutOfMemory>
    ensures { OnOk result (text.new ≡ text.old ++ choice_line choice) }
{
    match choice {
        Choice::HostPut => text.push(b"host-put"),
        Choice::HostTake => text.push(b"host-take"),
        Choice::HostTakeOn(queue) => push_number(text, b"host-take-on ", u64::from(queue)),
        Choice::IocTake => text.push(b"ioc-take"),
        Choice::IocHigh => text.push(b"ioc-high"),
        Choice::IocNormal => text.push(b"ioc-normal"),
        Choice::IocOut => text.push(b"ioc-out"),
        Choice::IocBack => text.push(b"ioc-back"),
        Choice::IocPut => text.push(b"ioc-put"),
        Choice::IocPutOn(queue) => push_number(text, b"ioc-put-on ", u64::from(queue)),
        Choice::FabricTake => text.push(b"fabric-take"),
        Choice::FabricSay => text.push(b"fabric-say"),
        Choice::FabricPut => text.push(b"fabric-put"),
        Choice::FabricRun(tag) => push_number(text, b"fabric-run ", u64::from(tag)),
    }
}
