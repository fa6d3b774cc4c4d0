//! Plans.
ghost use Rattle.std.specs.Prelude.{◌≡◌, ◌++◌, [], ◌∷◌, OnOk};
ghost use Rattle.mpt_script.specs.Planning as spec;
ghost use Rattle.mpt_script.specs.Plans.{IsPlan};

use crate::line::Line;
use crate::planning::Block;
use mpt_text::OutOfMemory;
use mpt_trace::{DiskSpec, Input};
use std::alloc::Global;
use std::marker::Model;

/// Inputs in order. A contract sees them as a list.
#[derive(Drop)]
pub struct Inputs {
    items: Vec<Input>,
}

impl Model for Inputs {
    ghost use Rattle.std.specs.Prelude.{List};
    ghost use Rattle.mpt_trace.specs.declared.input.Input.{Input};

    ghost Value = { List Input };

    ghost view = { λ i. i.items.items };
}

impl Inputs {
    pub(crate) fn new(alloc: Global) -> Inputs
        ensures { result ≡ [] }
    {
        Inputs {
            items: Vec::new(alloc),
        }
    }

    pub(crate) fn push(&mut self, input: Input) -> Result<(), OutOfMemory>
        ensures { OnOk result (self.new ≡ self.old ++ input ∷ []) }
    {
        self.items.push(input)?;
        Ok(())
    }

    /// The inputs as a slice.
    pub fn as_slice(&self) -> &[Input]
        ensures { result.now ≡ self.now }
    {
        &self.items
    }

    /// The inputs, in the memory that they are in.
    pub fn into_vec(self) -> Vec<Input>
        ensures { result.items ≡ self }
    {
        self.items
    }
}

/// The parts of a plan that is being read, each in order. A contract sees them as their record.
#[derive(Drop)]
pub(crate) struct Parts {
    pub queues: u8,
    pub disks: Vec<DiskSpec>,
    pub phys: Vec<u8>,
    pub plugs: Inputs,
    pub submitters: Vec<Inputs>,
    pub fabric: Inputs,
}

impl Model for Parts {
    ghost use Rattle.mpt_script.specs.PlanParts.{PlanParts};

    ghost Value = { PlanParts };

    ghost view = { λ p. record { queues = p.queues; disks = p.disks.items; phys = p.phys.items; plugs = p.plugs; submitters = p.submitters.items; fabric = p.fabric } };
}

impl Parts {
    // Adds a line in a block.
    pub fn add_line(&mut self, block: Block, line: Line) -> Result<(), OutOfMemory>
        ensures { OnOk result (self.new ≡ spec.extended block self.old line) }
    {
        match line {
            Line::Queues(queues) => self.queues = queues,
            Line::Disk(disk) => self.disks.push(disk)?,
            Line::Expander { phys } => self.phys.push(phys)?,
            Line::Input(input) => return self.add_input(block, input),
            Line::Choice { .. } | Line::Drain => {}
        }
        Ok(())
    }

    fn add_input(&mut self, block: Block, input: Input) -> Result<(), OutOfMemory>
        ensures { OnOk result (self.new ≡ spec.placed block self.old input) }
    {
        match block {
            Block::Setup => self.plugs.push(input),
            Block::Submitter => push_onto_last(&mut self.submitters, input),
            Block::Fabric => self.fabric.push(input),
        }
    }

    // Adds a submitter without inputs.
    pub fn add_submitter(&mut self, alloc: Global) -> Result<(), OutOfMemory>
        ensures { OnOk result (self.new ≡ spec.with_submitter self.old) }
    {
        self.submitters.push(Inputs::new(alloc))?;
        Ok(())
    }
}

/// A plan: what the parts of a session do, side by side, as some text says it. A contract sees it as
/// the record of its parts, each in order.
#[derive(Drop)]
pub struct Plan {
    parts: Parts,
}

impl Model for Plan {
    ghost use Rattle.mpt_script.specs.PlanParts.{PlanParts};
    ghost use Rattle.mpt_script.specs.Plans.{IsPlan};

    ghost Value = { PlanParts };

    ghost view = { λ p. p.parts };

    ghost invariant = { λ p. IsPlan p.parts };
}

impl Plan {
    // The parts are those of a plan.
    pub(crate) fn from_parts(parts: Parts) -> Plan
        requires { IsPlan parts }
        ensures { result ≡ parts }
    {
        Plan { parts }
    }

    /// How many reply post queues there are, 1 to 8. Some text stands for the plan.
    pub fn queues(&self) -> u8
        ensures queues { result ≡ self.now.queues }
        ensures allowed { IsPlan self.now }
    {
        self.parts.queues
    }

    /// The disks.
    pub fn disks(&self) -> &[DiskSpec]
        ensures { result.now ≡ self.now.disks }
    {
        &self.parts.disks
    }

    /// How many phys each expander has.
    pub fn phys(&self) -> &[u8]
        ensures { result.now ≡ self.now.phys }
    {
        &self.parts.phys
    }

    /// The plugs before the first submitter.
    pub fn plugs(&self) -> &Inputs
        ensures { result.now ≡ self.now.plugs }
    {
        &self.parts.plugs
    }

    /// The submitters' inputs.
    pub fn submitters(&self) -> &[Inputs]
        ensures { result.now ≡ self.now.submitters }
    {
        &self.parts.submitters
    }

    /// The inputs of the fabric's block.
    pub fn fabric(&self) -> &Inputs
        ensures { result.now ≡ self.now.fabric }
    {
        &self.parts.fabric
    }

    /// The inputs, in the memory that they are in: the plugs before the first submitter, those of
    /// each submitter, and those of the fabric's block.
    pub fn into_inputs(self) -> (Inputs, Vec<Inputs>, Inputs)
        ensures plugs { result.0 ≡ self.plugs }
        ensures submitters { result.1.items ≡ self.submitters }
        ensures fabric { result.2 ≡ self.fabric }
    {
        let parts = self.parts;
        (parts.plugs, parts.submitters, parts.fabric)
    }
}

// Adds an input to the last submitter's, if there is one.
fn push_onto_last(submitters: &mut Vec<Inputs>, input: Input) -> Result<(), OutOfMemory>
    ensures { OnOk result (submitters.new.items ≡ spec.onto_last submitters.old.items input) }
{
    match submitters.last_mut() {
        Some(inputs) => inputs.push(input),
        None => Ok(()),
    }
}
