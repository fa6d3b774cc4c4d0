//! What the lines of a plan have declared, and the causes that rest on it.
ghost use Rattle.std.specs.Prelude.{◌≡◌, ◌==◌, ◌<◌, ◌≤◌, IfOk, OnOk, length};
ghost use Rattle.std.specs.List.{list_any};
ghost use Rattle.mpt_script.specs.Planning as spec;

use crate::declared::{Declared, line_of};
use crate::line::Line;
use crate::plan::{Inputs, Parts};
use mpt_lines::{Cause, PlanStatement, Statement};
use mpt_text::OutOfMemory;
use mpt_trace::Input;
use std::alloc::Global;
use std::collections::BTreeSet;
use std::marker::Model;

/// The most submitters.
const SUBMITTERS: usize = 8;

/// The most lines of all submitters.
const LINES: u32 = 4096;

/// Which block of a plan is being read.
#[derive(Clone, Copy)]
pub(crate) enum Block {
    /// The lines before the first block.
    Setup,
    /// A submitter's.
    Submitter,
    /// The fabric's.
    Fabric,
}

/// A line of a plan.
#[derive(Drop)]
pub(crate) enum PlanLine {
    /// A line that a schedule could have too.
    Line(Line),
    /// The next submitter's block begins.
    Submitter,
    /// The fabric's block begins.
    Fabric,
}

/// The plan so far.
#[derive(Drop)]
pub(crate) struct Planning {
    block: Block,
    declared: Declared,
    // The numbers of the submissions.
    numbers: BTreeSet<u32>,
    lines: u32,
    plan: Parts,
}

impl Model for Planning {
    ghost use Rattle.mpt_script.specs.PlanState.{PlanState};
    ghost use Rattle.std.specs.Prelude.{◌≤◌};

    ghost Value = { PlanState };

    ghost view = { λ p. record { block = p.block; declared = p.declared; numbers = p.numbers.keys; lines = p.lines; plan = p.plan } };

    ghost invariant = { λ p. p.lines ≤ 4096 };
}

impl Planning {
    /// Before the first line.
    pub fn new(alloc: Global) -> Planning
        ensures { result ≡ spec.nothing_planned }
    {
        Planning {
            block: Block::Setup,
            declared: Declared::new(alloc),
            numbers: BTreeSet::new(alloc),
            lines: 0,
            plan: Parts {
                queues: 1,
                disks: Vec::new(alloc),
                phys: Vec::new(alloc),
                plugs: Inputs::new(alloc),
                submitters: Vec::new(alloc),
                fabric: Inputs::new(alloc),
            },
        }
    }

    /// The plan's parts.
    pub fn into_parts(self) -> Parts
        ensures { result ≡ self.plan }
    {
        self.plan
    }

    /// The line that a statement is, or the first cause that it is refused for.
    pub fn line(&self, said: PlanStatement) -> Result<PlanLine, Cause>
        ensures value { result ≡ spec.plan_judged self.now said }
        ensures room { IfOk result (λ line. spec.HasPlanRoom self.now line) }
    {
        match said {
            PlanStatement::Line(said) => Ok(PlanLine::Line(self.shared_line(said)?)),
            PlanStatement::Submitter(number) => self.submitter(number),
            PlanStatement::Fabric => self.fabric(),
        }
    }

    fn submitter(&self, number: u128) -> Result<PlanLine, Cause>
        ensures value { result ≡ spec.judged_submitter self.now number }
        ensures room { IfOk result (λ line. spec.HasPlanRoom self.now line) }
    {
        if matches!(self.block, Block::Fabric) || number != self.plan.submitters.len() as u128 {
            return Err(Cause::Order);
        }
        if self.plan.submitters.len() >= SUBMITTERS {
            return Err(Cause::Many);
        }
        Ok(PlanLine::Submitter)
    }

    fn fabric(&self) -> Result<PlanLine, Cause>
        ensures value { result ≡ spec.judged_fabric self.now }
        ensures room { IfOk result (λ line. spec.HasPlanRoom self.now line) }
    {
        match self.block {
            Block::Fabric => Err(Cause::Order),
            _ => Ok(PlanLine::Fabric),
        }
    }

    fn shared_line(&self, said: Statement) -> Result<Line, Cause>
        ensures value { result ≡ spec.judged_line self.now said }
        ensures room { IfOk result (λ line. spec.HasPlanRoom self.now (spec.shared line)) }
    {
        if self.declared.is_misplaced(&said) || is_out_of_block(self.block, &said) {
            return Err(Cause::Order);
        }
        if self.declared.is_repeated(&said) || self.is_numbered(&said) {
            return Err(Cause::Again);
        }
        if self.declared.is_too_many(&said) || self.is_crowded(&said) {
            return Err(Cause::Many);
        }
        if self.declared.is_unknown(&said) {
            return Err(Cause::Name);
        }
        Ok(line_of(said))
    }

    /// Adds a line, one that `line` answered.
    pub fn add(&mut self, alloc: Global, line: PlanLine) -> Result<(), OutOfMemory>
        requires { spec.HasPlanRoom self.old line }
        ensures { OnOk result (self.new ≡ spec.planned_after self.old line) }
    {
        match line {
            PlanLine::Line(line) => return self.add_line(line),
            PlanLine::Submitter => {
                self.plan.add_submitter(alloc)?;
                self.block = Block::Submitter;
            }
            PlanLine::Fabric => self.block = Block::Fabric,
        }
        self.declared.begin();
        Ok(())
    }

    fn add_line(&mut self, line: Line) -> Result<(), OutOfMemory>
        requires { spec.HasPlanRoom self.old (spec.shared line) }
        ensures { OnOk result (self.new ≡ spec.planned_after self.old (spec.shared line)) }
    {
        self.declared.note(&line)?;
        if let Some(n) = number_of(&line) {
            self.numbers.insert(n)?;
        }
        self.lines += lines_of(self.block, &line);
        self.plan.add_line(self.block, line)
    }

    // Whether a submission's number was used before.
    fn is_numbered(&self, said: &Statement) -> bool
        ensures { result ≡ spec.is_numbered self.now said.now }
    {
        match said {
            Statement::Host(Input::Submit { n, .. }) => self.has_number(*n),
            _ => false,
        }
    }

    fn has_number(&self, n: u32) -> bool
        ensures { result ≡ list_any (λ m. m == n) self.now.numbers }
    {
        self.numbers.contains(&n)
    }

    // Whether the submitters have as many lines as they may.
    fn is_crowded(&self, said: &Statement) -> bool
        ensures { result ≡ spec.is_crowded self.now said.now }
    {
        match said {
            Statement::Host(_) => self.lines >= LINES,
            _ => false,
        }
    }
}

// Whether an input stands in a block that has none of its kind.
fn is_out_of_block(block: Block, said: &Statement) -> bool
    ensures { result ≡ spec.is_out_of_block block said.now }
{
    match said {
        Statement::Plug { .. } => matches!(block, Block::Submitter),
        Statement::Unplug { .. } => !matches!(block, Block::Fabric),
        Statement::Host(_) => !matches!(block, Block::Submitter),
        _ => false,
    }
}

// 1 for a line of a submitter's block.
fn lines_of(block: Block, line: &Line) -> u32
    ensures value { result ≡ spec.lines_of block line.now }
    ensures small { result ≤ 1 }
{
    match (block, line) {
        (Block::Submitter, Line::Input(_)) => 1,
        _ => 0,
    }
}

// The submission's number in a line, if it has one.
fn number_of(line: &Line) -> Option<u32>
    ensures { result ≡ spec.number_of line.now }
{
    match line {
        Line::Input(Input::Submit { n, .. }) => Some(*n),
        _ => None,
    }
}
