//! Printing plans.
ghost use Rattle.std.specs.Prelude.{◌≡◌, ◌++◌, IfOk, OnOk};
ghost use Rattle.mpt_script.specs.Plans.{plan_of};
ghost use Rattle.mpt_script.specs.PrintedPlan as spec;

use crate::plan::{Inputs, Plan};
use crate::print::{push_disk, push_expander};
use mpt_text::{OutOfMemory, Text};
use mpt_trace::{DiskSpec, Input, push_input};
use std::alloc::Global;

/// The text of a plan, each line with lower-case digits: the number of queues where it is above 1, the
/// disks, the expanders, the plugs, the submitters, and the fabric's block where it has lines. The text
/// reads as the plan.
pub fn print_plan(alloc: Global, plan: &Plan) -> Result<Text, OutOfMemory>
    ensures text { IfOk result (λ text. text ≡ spec.plan_text plan.now) }
    ensures reads_back { IfOk result (λ text. plan_of text ≡ Ok plan.now) }
{
    let mut text = Text::new(alloc);
    push_queues(&mut text, plan.queues())?;
    push_disks(&mut text, plan.disks())?;
    push_expanders(&mut text, plan.phys())?;
    push_inputs(&mut text, plan.plugs().as_slice())?;
    push_submitters(&mut text, plan.submitters())?;
    push_fabric(&mut text, plan.fabric().as_slice())?;
    Ok(text)
}

fn push_queues(text: &mut Text, queues: u8) -> Result<(), OutOfMemory>
    ensures { OnOk result (text.new ≡ text.old ++ spec.queues_text queues) }
{
    if queues <= 1 {
        return Ok(());
    }
    text.push(b"queues ")?;
    text.push_decimal(u64::from(queues))?;
    text.push(b"\n")
}

fn push_disks(text: &mut Text, disks: &[DiskSpec]) -> Result<(), OutOfMemory>
    ensures { OnOk result (text.new ≡ text.old ++ spec.disks_text disks.now) }
{
    for disk in disks {
        push_disk(text, disk)?;
        text.push(b"\n")?;
    }
    Ok(())
}

fn push_expanders(text: &mut Text, phys: &[u8]) -> Result<(), OutOfMemory>
    ensures { OnOk result (text.new ≡ text.old ++ spec.expanders_text 0 phys.now) }
{
    for (number, phys) in phys.iter().enumerate() {
        push_expander(text, number as u64, *phys)?;
        text.push(b"\n")?;
    }
    Ok(())
}

fn push_inputs(text: &mut Text, inputs: &[Input]) -> Result<(), OutOfMemory>
    ensures { OnOk result (text.new ≡ text.old ++ spec.inputs_text inputs.now) }
{
    for input in inputs {
        push_input(text, input)?;
        text.push(b"\n")?;
    }
    Ok(())
}

fn push_submitters(text: &mut Text, submitters: &[Inputs]) -> Result<(), OutOfMemory>
    ensures { OnOk result (text.new ≡ text.old ++ spec.submitters_text 0 submitters.now) }
{
    for (number, inputs) in submitters.iter().enumerate() {
        push_submitter(text, number as u64, inputs.as_slice())?;
    }
    Ok(())
}

fn push_submitter(text: &mut Text, number: u64, inputs: &[Input]) -> Result<(), OutOfMemory>
    ensures { OnOk result (text.new ≡ text.old ++ spec.submitter_text number inputs.now) }
{
    text.push(b"submitter ")?;
    text.push_decimal(number)?;
    text.push(b"\n")?;
    push_inputs(text, inputs)
}

fn push_fabric(text: &mut Text, inputs: &[Input]) -> Result<(), OutOfMemory>
    ensures { OnOk result (text.new ≡ text.old ++ spec.fabric_text inputs.now) }
{
    if inputs.is_empty() {
        return Ok(());
    }
    text.push(b"fabric\n")?;
    push_inputs(text, inputs)
}
