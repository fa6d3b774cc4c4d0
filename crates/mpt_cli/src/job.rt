//! The words of the command line.
ghost use Rattle.std.specs.Prelude.{◌≡◌, drop, map, string_bytes};
ghost use Rattle.std.specs.Option.{option_map};
ghost use Rattle.mpt_cli.specs.Job.{decode_job, decoded_of, job_of};

use mpt_lines::word_number;
use mpt_messages::Kind;

/// What `decode` reads.
#[derive(Clone, Copy, Debug, PartialEq, Eq)]
pub enum Decoded {
    /// `scsi`, `high`, `default` and `door`: a request that travels in this way.
    Request(Kind),
    /// `reply`: a reply.
    Reply,
    /// `post`: a request descriptor.
    Post,
    /// `answer`: a reply descriptor.
    Answer,
    /// `page0`: a SAS Device Page 0.
    Page0,
    /// `sgl`: a scatter list.
    ScatterList,
}

impl Decoded {
    // What the word names, or none.
    fn from_word(word: &str) -> Option<Decoded>
        ensures { result ≡ decoded_of word.now }
    {
        match word {
            "scsi" => Some(Decoded::Request(Kind::ScsiIo)),
            "high" => Some(Decoded::Request(Kind::HighPriority)),
            "default" => Some(Decoded::Request(Kind::Default)),
            "door" => Some(Decoded::Request(Kind::Handshake)),
            "reply" => Some(Decoded::Reply),
            "post" => Some(Decoded::Post),
            "answer" => Some(Decoded::Answer),
            "page0" => Some(Decoded::Page0),
            "sgl" => Some(Decoded::ScatterList),
            _ => None,
        }
    }
}

/// What is asked of an input.
#[derive(Clone, Copy, Debug, PartialEq, Eq)]
pub enum Question {
    /// `decode <kind>`: the fields of one message, descriptor or page, or a scatter list.
    Decode(Decoded),
    /// `replay`: the report of a schedule.
    Replay,
    /// `show`: the short report of a schedule.
    Show,
}

/// What the words ask for.
#[derive(Clone, Copy, Debug, PartialEq, Eq)]
pub enum Job {
    /// `decode <kind>`, `replay`, `show`: the answer to the input.
    Answer(Question),
    /// `gen <number>`: the schedule of this number.
    Gen(u64),
}

impl Job {
    /// The job that the words name, or none where they are none of the listed forms.
    pub fn from_words(words: &[String]) -> Option<Job>
        ensures { result ≡ job_of (map string_bytes words.now) }
    {
        match words {
            [word] if word.as_str() == "replay" => Some(Job::Answer(Question::Replay)),
            [word] if word.as_str() == "show" => Some(Job::Answer(Question::Show)),
            [first, second] if first.as_str() == "decode" => decode_job(second.as_str()),
            [first, second] if first.as_str() == "gen" => {
                word_number(second.as_bytes()).map(Job::Gen)
            }
            _ => None,
        }
    }
}

// To decode what the word names, or none.
fn decode_job(word: &str) -> Option<Job>
    ensures { result ≡ option_map decode_job (decoded_of word.now) }
{
    match Decoded::from_word(word) {
        Some(decoded) => Some(Job::Answer(Question::Decode(decoded))),
        None => None,
    }
}

/// The words after the program's name, which is the first argument. No argument, no words.
pub fn words_of(arguments: &[String]) -> &[String]
    ensures { result.now ≡ drop 1 arguments.now }
{
    match arguments {
        [] => arguments,
        [_, words @ ..] => words,
    }
}
