//! What is printed of an input that was read whole.
ghost use Rattle.std.specs.Prelude.{◌≡◌, ◌<◌, ◌^◌, IfOk, length};
ghost use Rattle.mpt_cli.specs.Answer.{IsAnswer, IsAnswerTo};
ghost use Rattle.mpt_cli.specs.declared.status.Status.TheVariants as status;

use crate::decode::answer_to_hex;
use crate::input::count_lines;
use crate::job::Question;
use crate::replay::{answer_to_replay, answer_to_show};
use crate::status::Status;
use mpt_text::{OutOfMemory, Text};
use std::alloc::Global;

/// The most lines that an input may have.
const MOST_LINES: usize = 20_000;

/// A status and the text that goes with it.
#[derive(Drop)]
pub struct Answer {
    /// How the run ends once the text is written.
    pub status: Status,
    /// The text.
    pub text: Text,
}

impl Answer {
    /// The answer that lists what the input has.
    pub fn listed(text: Text) -> Answer
        ensures status { result.status ≡ status.Ok }
        ensures text { result.text ≡ text }
    {
        Answer {
            status: Status::Ok,
            text,
        }
    }

    /// The answer that refuses the input.
    pub fn refused(text: Text) -> Answer
        ensures status { result.status ≡ status.Refused }
        ensures text { result.text ≡ text }
    {
        Answer {
            status: Status::Refused,
            text,
        }
    }

    /// A status with this line.
    pub fn with_line(alloc: Global, status: Status, line: &[u8]) -> Result<Answer, OutOfMemory>
        ensures { IfOk result (λ a. (a.status ≡ status) × (a.text ≡ line.now)) }
    {
        let mut text = Text::new(alloc);
        text.push(line)?;
        Ok(Answer { status, text })
    }
}

/// The answer to what is asked of the whole input.
pub fn answer_to(alloc: Global, question: Question, input: &[u8]) -> Result<Answer, OutOfMemory>
    requires { length input.now < 2 ^ 32 }
    ensures { IfOk result (λ a. IsAnswer question input.now a.status a.text) }
{
    if count_lines(input) > MOST_LINES {
        return Answer::with_line(alloc, Status::TooLong, b"too long\n");
    }
    answer_within(alloc, question, input)
}

// The answer to an input that hasn't too many lines.
fn answer_within(alloc: Global, question: Question, input: &[u8]) -> Result<Answer, OutOfMemory>
    requires { length input.now < 2 ^ 32 }
    ensures { IfOk result (λ a. IsAnswerTo question input.now a.status a.text) }
{
    match question {
        Question::Decode(decoded) => answer_to_hex(alloc, decoded, input),
        Question::Replay => answer_to_replay(alloc, input),
        Question::Show => answer_to_show(alloc, input),
    }
}
