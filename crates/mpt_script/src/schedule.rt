//! Schedules, and reading them.
ghost use Rattle.std.specs.Prelude.{◌≡◌, ◌==◌, ◌++◌, IfErr, IfOk, IfSome, IsTrue, OnOk};
ghost use Rattle.mpt_script.specs.Allowed.{is_schedule};
ghost use Rattle.std.specs.Option.{option_to_list};
ghost use Rattle.mpt_script.specs.Schedules.{after_said, line_value, schedule_of, says_nothing, Refuses};
ghost use Rattle.mpt_script.specs.Declarations as spec;

use crate::declared::Declared;
use crate::line::Line;
use mpt_lines::{Cause, Pieces, ScriptFault, schedule_line};
use mpt_text::OutOfMemory;
use std::alloc::Global;
use std::marker::Model;

/// A schedule: lines that a text can stand for. A contract sees it as their list.
#[derive(Drop)]
pub struct Schedule {
    lines: Vec<Line>,
}

impl Model for Schedule {
    ghost use Rattle.std.specs.Prelude.{List};
    ghost use Rattle.mpt_script.specs.declared.line.Line.{Line};

    ghost Value = { List Line };

    ghost view = { λ s. s.lines.items };

    ghost use Rattle.std.specs.Prelude.{IsTrue};
    ghost use Rattle.mpt_script.specs.Allowed.{is_schedule};

    ghost invariant = { λ s. IsTrue (is_schedule s.lines.items) };
}

impl Schedule {
    // The lines are those of a schedule.
    pub(crate) fn from_lines(lines: Vec<Line>) -> Schedule
        requires { IsTrue (is_schedule lines.items) }
        ensures { result ≡ lines.items }
    {
        Schedule { lines }
    }

    /// Its lines in order: those that a text can stand for.
    pub fn lines(&self) -> &[Line]
        ensures lines { result.now ≡ self.now }
        ensures allowed { IsTrue (is_schedule self.now) }
    {
        &self.lines
    }
}

/// The schedule that a text stands for. Its lines end with LF; empty lines and those that begin with
/// `#` say nothing.
///
/// A text that isn't in the grammar is refused at its first faulty line with that line's first cause.
pub fn read_schedule(alloc: Global, text: &[u8]) -> Result<Schedule, ScriptFault>
    ensures read { IfOk result (λ schedule. schedule_of text.now ≡ Ok schedule) }
    ensures refused { IfErr result (λ fault. Refuses fault (schedule_of text.now)) }
{
    let mut left = Pieces::new(b'\n', text);
    let mut declared = Declared::new(alloc);
    let mut lines = Vec::new(alloc);
    let mut number: u32 = 1;
    while let Some(line) = left.take() {
        if left.is_empty() {
            // What follows the last line end.
            if line.is_empty() {
                return Ok(Schedule::from_lines(lines));
            }
            return Err(ScriptFault::At {
                line: number,
                cause: Cause::Unended,
            });
        }
        match line_value(&declared, line) {
            Ok(said) => add(&mut declared, &mut lines, said)?,
            Err(cause) => {
                return Err(ScriptFault::At {
                    line: number,
                    cause,
                });
            }
        }
        number = number.saturating_add(1);
    }
    Ok(Schedule::from_lines(lines))
}

// What a line says after what was declared, if it says something.
fn line_value(declared: &Declared, line: &[u8]) -> Result<Option<Line>, Cause>
    ensures value { result ≡ line_value declared.now line.now }
    ensures room { IfOk result (λ said. IfSome said (spec.HasRoom declared.now)) }
{
    if says_nothing(line) {
        return Ok(None);
    }
    let statement = schedule_line(Pieces::new(b' ', line))?;
    Ok(Some(declared.line(statement)?))
}

// Whether a line is empty or begins with `#`.
pub(crate) fn says_nothing(line: &[u8]) -> bool
    ensures { result ≡ says_nothing line.now }
{
    line.is_empty() || line[0] == b'#'
}

// Adds what a line said, if it said something.
fn add(
    declared: &mut Declared,
    lines: &mut Vec<Line>,
    said: Option<Line>,
) -> Result<(), OutOfMemory>
    requires { IfSome said (spec.HasRoom declared.old) }
    ensures declared { OnOk result (declared.new ≡ after_said declared.old said) }
    ensures lines { OnOk result (lines.new.items ≡ lines.old.items ++ option_to_list said) }
{
    let Some(line) = said else {
        return Ok(());
    };
    declared.note(&line)?;
    lines.push(line)?;
    Ok(())
}
