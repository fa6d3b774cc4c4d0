//! How commands, aborts and target resets end.
ghost use Rattle.std.specs.Prelude.{◌≡◌, IfOk};

use mpt_text::OutOfMemory;
use scsi_disk::ScsiResult;
use std::alloc::Global;

/// How a submission that was accepted ends.
#[derive(Drop)]
pub enum Outcome {
    /// The disk answered.
    Done(ScsiResult),
    /// The disk had gone.
    Gone,
    /// An abort or a target reset stopped it.
    Terminated,
    /// A reset of the controller ended it.
    Reset,
}

/// How an abort ends.
#[derive(Clone, Copy)]
pub enum AbortOutcome {
    /// It stopped the command.
    Stopped,
    /// It didn't find the command.
    NotFound,
    /// A reset of the controller ended it.
    Reset,
}

/// How a target reset ends.
#[derive(Clone, Copy)]
pub enum TargetOutcome {
    /// It was done, and terminated this many commands.
    Done(u32),
    /// A reset of the controller ended it.
    Reset,
}

impl Outcome {
    /// An equal value, or OutOfMemory.
    pub fn copy(&self, alloc: Global) -> Result<Outcome, OutOfMemory>
        ensures { IfOk result (λ outcome. outcome ≡ self.now) }
    {
        match self {
            Outcome::Done(result) => Ok(Outcome::Done(copy_result(result, alloc)?)),
            Outcome::Gone => Ok(Outcome::Gone),
            Outcome::Terminated => Ok(Outcome::Terminated),
            Outcome::Reset => Ok(Outcome::Reset),
        }
    }
}

// An equal result, or OutOfMemory.
pub(crate) fn copy_result(answer: &ScsiResult, alloc: Global) -> Result<ScsiResult, OutOfMemory>
    ensures { IfOk result (λ copied. copied ≡ answer.now) }
{
    let payload = answer.payload.copy(alloc)?;
    let sense = answer.sense.copy(alloc)?;
    Ok(ScsiResult {
        status: answer.status,
        payload,
        sense,
    })
}
