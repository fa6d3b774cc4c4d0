//! Lines of a schedule, carried out on a system.
ghost use Rattle.std.specs.Prelude.{◌≡◌, [], ◌∷◌};
ghost use Rattle.law_replays.specs.Schedules.{lines_of};
ghost use Rattle.mpt_wire.specs.Fits.Lines.{Asked, Drained, Stepped, Steps};
ghost use Rattle.mpt_system.specs.Turns.{HasTurned};
ghost use Rattle.mpt_replay.specs.Carrying.{HasCarriedOut};

use mpt_script::Line;
use mpt_system::{StepFault, System};
use mpt_text::OutOfMemory;
use mpt_trace::{Choice, Input};
use std::alloc::Global;

/// Carries out lines of a schedule, one after the other, on a system in whose trace nothing is missing.
/// Lines of the head are passed over.
///
/// # Errors
/// After OutOfMemory the first turns of the lines were made, inputs, steps and tries of drains, and no
/// other; the last of their entries may be pending.
pub fn carry_out(alloc: Global, system: &mut System, lines: &[Line]) -> Result<(), OutOfMemory>
    requires { system.old.pending ≡ [] }
    ensures { HasCarriedOut system.old (lines_of lines.now) result system.new }
{
    for line in lines {
        carry_out_line(alloc, system, line)?;
    }
    Ok(())
}

fn carry_out_line(alloc: Global, system: &mut System, line: &Line) -> Result<(), OutOfMemory>
    requires { system.old.pending ≡ [] }
    ensures { HasCarriedOut system.old (lines_of (line.now ∷ [])) result system.new }
{
    match line {
        Line::Queues(_) => Ok(()),
        Line::Disk(_) => Ok(()),
        Line::Expander { .. } => Ok(()),
        Line::Input(input) => tell(alloc, system, input),
        Line::Choice { choice, count } => make_steps(system, *choice, *count),
        Line::Drain => drain(system),
    }
}

// An input is told.
fn tell(alloc: Global, system: &mut System, input: &Input) -> Result<(), OutOfMemory>
    ensures { HasCarriedOut system.old (Asked input.now ∷ []) result system.new }
{
    system.input(input.copy(alloc)?)
}

// So many steps of a choice.
fn make_steps(system: &mut System, choice: Choice, count: u8) -> Result<(), OutOfMemory>
    requires { system.old.pending ≡ [] }
    ensures { HasCarriedOut system.old (Stepped choice count ∷ []) result system.new }
{
    for _step in 0..count {
        make_step(system, choice)?;
    }
    Ok(())
}

// A step of a choice. One with nothing to take is entered as idle.
fn make_step(system: &mut System, choice: Choice) -> Result<(), OutOfMemory>
    ensures { HasTurned system.old (Steps choice ∷ []) result system.new }
{
    match system.step(choice) {
        Ok(_) => Ok(()),
        Err(StepFault::Idle) => Ok(()),
        Err(StepFault::OutOfMemory) => Err(OutOfMemory),
    }
}

// Rounds until the system is quiet.
fn drain(system: &mut System) -> Result<(), OutOfMemory>
    ensures { HasCarriedOut system.old (Drained ∷ []) result system.new }
{
    system.drain()?;
    Ok(())
}
