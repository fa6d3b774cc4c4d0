//! Reading plans.
ghost use Rattle.std.specs.Prelude.{◌≡◌, IfErr, IfOk, IfSome, OnOk};
ghost use Rattle.mpt_script.specs.Planning as spec;
ghost use Rattle.mpt_script.specs.Plans.{after_planned, plan_of, plan_value};
ghost use Rattle.mpt_script.specs.Schedules.{Refuses};

use crate::plan::Plan;
use crate::planning::{PlanLine, Planning};
use crate::schedule::says_nothing;
use mpt_lines::{Cause, Pieces, ScriptFault, plan_line};
use mpt_text::OutOfMemory;
use std::alloc::Global;

/// The plan that a text stands for. Its lines end with LF; empty lines and those that begin with `#`
/// say nothing.
///
/// A text that isn't in the grammar is refused at its first faulty line with that line's first cause.
pub fn read_plan(alloc: Global, text: &[u8]) -> Result<Plan, ScriptFault>
    ensures read { IfOk result (λ plan. plan_of text.now ≡ Ok plan) }
    ensures refused { IfErr result (λ fault. Refuses fault (plan_of text.now)) }
{
    let mut left = Pieces::new(b'\n', text);
    let mut planning = Planning::new(alloc);
    let mut number: u32 = 1;
    while let Some(line) = left.take() {
        if left.is_empty() {
            // What follows the last line end.
            if line.is_empty() {
                return Ok(Plan::from_parts(planning.into_parts()));
            }
            return Err(ScriptFault::At {
                line: number,
                cause: Cause::Unended,
            });
        }
        match plan_value(&planning, line) {
            Ok(said) => add(alloc, &mut planning, said)?,
            Err(cause) => {
                return Err(ScriptFault::At {
                    line: number,
                    cause,
                });
            }
        }
        number = number.saturating_add(1);
    }
    Ok(Plan::from_parts(planning.into_parts()))
}

// What a line says after what was planned, if it says something.
fn plan_value(planning: &Planning, line: &[u8]) -> Result<Option<PlanLine>, Cause>
    ensures value { result ≡ plan_value planning.now line.now }
    ensures room { IfOk result (λ said. IfSome said (spec.HasPlanRoom planning.now)) }
{
    if says_nothing(line) {
        return Ok(None);
    }
    let statement = plan_line(Pieces::new(b' ', line))?;
    Ok(Some(planning.line(statement)?))
}

// Adds what a line said, if it said something.
fn add(alloc: Global, planning: &mut Planning, said: Option<PlanLine>) -> Result<(), OutOfMemory>
    requires { IfSome said (spec.HasPlanRoom planning.old) }
    ensures { OnOk result (planning.new ≡ after_planned planning.old said) }
{
    match said {
        Some(line) => planning.add(alloc, line),
        None => Ok(()),
    }
}
