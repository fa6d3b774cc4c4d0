//! What the lines of a schedule have declared, and the causes that rest on it.
ghost use Rattle.std.specs.Prelude.{◌≡◌, ◌+◌, ◌<◌, ◌≤◌, ◌==◌, false, IfOk, IsTrue, OnOk};
ghost use Rattle.std.specs.List.{list_any};
ghost use Rattle.mpt_script.specs.Declarations as spec;
ghost use Rattle.mpt_script.specs.Planning as plan;

use crate::line::Line;
use crate::schedule_stage::ScheduleStage;
use mpt_lines::{Cause, Statement};
use mpt_text::OutOfMemory;
use mpt_trace::{Address, Choice, CommandForm, Input};
use std::alloc::Global;
use std::collections::BTreeSet;
use std::marker::Model;

/// The most disks.
const DISKS: usize = 64;

/// The most expanders.
const EXPANDERS: usize = 16;

/// The most `reset` and `unit` lines.
const RESETS: u32 = 64;

/// The most bytes of all submissions whose length is at most 4,096.
const DATA: u32 = 16_777_216;

/// The longest transfer, in bytes.
const TRANSFER: u32 = 4096;

/// What the lines so far have declared.
#[derive(Drop)]
pub(crate) struct Declared {
    stage: ScheduleStage,
    queues: u8,
    addresses: BTreeSet<Address>,
    phys: Vec<u8>,
    resets: u32,
    total: u32,
}

impl Model for Declared {
    ghost use Rattle.mpt_script.specs.Declarations.{Declared};
    ghost use Rattle.std.specs.Prelude.{◌≤◌, length};

    ghost Value = { Declared };

    ghost view = { λ d. record { stage = d.stage; queues = d.queues; addresses = d.addresses.keys; phys = d.phys.items; resets = d.resets; total = d.total } };

    ghost invariant = { λ d. (length d.addresses.keys ≤ 64) × (length d.phys.items ≤ 16) × (d.resets ≤ 64) × (d.total ≤ 16777216) };
}

impl Declared {
    /// Before the first line.
    pub fn new(alloc: Global) -> Declared
        ensures { result ≡ spec.nothing_declared }
    {
        Declared {
            stage: ScheduleStage::First,
            queues: 1,
            addresses: BTreeSet::new(alloc),
            phys: Vec::new(alloc),
            resets: 0,
            total: 0,
        }
    }

    /// The line that a statement is, or the first cause that it is refused for.
    pub fn line(&self, statement: Statement) -> Result<Line, Cause>
        ensures value { result ≡ spec.judged self.now statement }
        ensures room { IfOk result (λ line. spec.HasRoom self.now line) }
    {
        if self.is_misplaced(&statement) {
            return Err(Cause::Order);
        }
        if self.is_repeated(&statement) {
            return Err(Cause::Again);
        }
        if self.is_too_many(&statement) {
            return Err(Cause::Many);
        }
        if self.is_unknown(&statement) {
            return Err(Cause::Name);
        }
        Ok(line_of(statement))
    }

    pub fn is_misplaced(&self, statement: &Statement) -> bool
        ensures { result ≡ spec.is_misplaced self.now statement.now }
    {
        match statement {
            Statement::Queues(_) => !matches!(self.stage, ScheduleStage::First),
            Statement::Disk(_) => matches!(self.stage, ScheduleStage::Steps),
            Statement::Expander { number, .. } => {
                matches!(self.stage, ScheduleStage::Steps) || *number != self.phys.len() as u128
            }
            _ => false,
        }
    }

    pub fn is_repeated(&self, statement: &Statement) -> bool
        ensures { result ≡ spec.is_repeated self.now statement.now }
    {
        match statement {
            Statement::Disk(disk) => self.has_disk(disk.address),
            _ => false,
        }
    }

    pub fn is_too_many(&self, statement: &Statement) -> bool
        ensures value { result ≡ spec.is_too_many self.now statement.now }
        ensures limits { (self.now.resets ≤ 64) × (self.now.total ≤ 16777216) }
    {
        match statement {
            Statement::Disk(_) => self.addresses.len() >= DISKS,
            Statement::Expander { .. } => self.phys.len() >= EXPANDERS,
            Statement::Host(input) => {
                self.resets + resets_of(input) > RESETS || self.total + data_of(input) > DATA
            }
            _ => false,
        }
    }

    pub fn is_unknown(&self, statement: &Statement) -> bool
        ensures value { result ≡ spec.is_unknown self.now statement.now }
        ensures small { result ≡ false → spec.IsSmall statement.now }
    {
        match statement {
            Statement::Plug {
                address,
                expander,
                phy,
            } => !(self.has_disk(*address) && self.has_phy(*expander, *phy)),
            Statement::Unplug { address } => !self.has_disk(*address),
            Statement::Choice { choice, .. } => !self.has_queue(*choice),
            _ => false,
        }
    }

    fn has_disk(&self, address: Address) -> bool
        ensures { result ≡ spec.has_disk self.now address }
    {
        self.addresses.contains(&address)
    }

    fn has_phy(&self, expander: u128, phy: u128) -> bool
        ensures value { result ≡ spec.has_phy self.now expander phy }
        ensures small { IsTrue result → (expander < 256) × (phy < 256) }
    {
        expander < self.phys.len() as u128 && phy < self.phys[expander as usize] as u128
    }

    fn has_queue(&self, choice: Choice) -> bool
        ensures { result ≡ spec.has_queue self.now choice }
    {
        match choice {
            Choice::IocPutOn(queue) | Choice::HostTakeOn(queue) => queue < self.queues,
            _ => true,
        }
    }

    /// Ends the declarations.
    pub fn begin(&mut self)
        ensures { self.new ≡ plan.begun self.old }
    {
        self.stage = ScheduleStage::Steps;
    }

    /// Adds what a line declares. The line is one that `line` answered.
    pub fn note(&mut self, line: &Line) -> Result<(), OutOfMemory>
        requires { spec.HasRoom self.old line.now }
        ensures { OnOk result (self.new ≡ spec.after self.old line.now) }
    {
        match line {
            Line::Queues(queues) => {
                self.queues = *queues;
                self.stage = ScheduleStage::Declarations;
            }
            Line::Disk(disk) => {
                self.addresses.insert(disk.address)?;
                self.stage = ScheduleStage::Declarations;
            }
            Line::Expander { phys } => {
                self.phys.push(*phys)?;
                self.stage = ScheduleStage::Declarations;
            }
            Line::Input(input) => {
                self.resets += resets_of(input);
                self.total += data_of(input);
                self.stage = ScheduleStage::Steps;
            }
            Line::Choice { .. } | Line::Drain => self.stage = ScheduleStage::Steps,
        }
        Ok(())
    }
}

// The line that a statement is. Numbers of expanders and phys that were declared are below 256.
pub(crate) fn line_of(statement: Statement) -> Line
    requires { spec.IsSmall statement }
    ensures { result ≡ spec.line_of statement }
{
    match statement {
        Statement::Queues(queues) => Line::Queues(queues),
        Statement::Disk(disk) => Line::Disk(disk),
        Statement::Expander { phys, .. } => Line::Expander { phys },
        Statement::Plug {
            address,
            expander,
            phy,
        } => Line::Input(Input::Plug {
            address,
            expander: expander as u8,
            phy: phy as u8,
        }),
        Statement::Unplug { address } => Line::Input(Input::Unplug { address }),
        Statement::Host(input) => Line::Input(input),
        Statement::Choice { choice, count } => Line::Choice { choice, count },
        Statement::Drain => Line::Drain,
    }
}

// 1 for a `reset` or a `unit`.
fn resets_of(input: &Input) -> u32
    ensures value { result ≡ spec.resets_of input.now }
    ensures small { result ≤ 1 }
{
    match input {
        Input::Reset | Input::UnitReset => 1,
        _ => 0,
    }
}

// The bytes that an input counts against the limit on data.
fn data_of(input: &Input) -> u32
    ensures value { result ≡ spec.data_of input.now }
    ensures small { result ≤ 4096 }
{
    match input {
        Input::Submit { form, .. } => counted_length(form),
        _ => 0,
    }
}

fn counted_length(form: &CommandForm) -> u32
    ensures value { result ≡ spec.counted_length form.now }
    ensures small { result ≤ 4096 }
{
    let length = form_length(form);
    if length <= TRANSFER { length } else { 0 }
}

// The number of bytes that a command moves at most.
fn form_length(form: &CommandForm) -> u32
    ensures { result ≡ spec.form_length form.now }
{
    match form {
        CommandForm::Tur => 0,
        CommandForm::Inquiry { len } => *len as u32,
        CommandForm::Capacity => 8,
        CommandForm::Read { blocks, .. } | CommandForm::Write { blocks, .. } => {
            512 * *blocks as u32
        }
        CommandForm::Read16 { blocks, .. } | CommandForm::Write16 { blocks, .. } => {
            512 * *blocks as u32
        }
        CommandForm::Raw { len, .. } => *len,
    }
}
