//! How a run ended.
ghost use Rattle.std.specs.Prelude.{◌≡◌};
ghost use Rattle.mpt_cli.specs.Run.{status_number};

/// How a run ended. The process ends with its number.
#[derive(Clone, Copy, Debug, PartialEq, Eq)]
pub enum Status {
    /// The input was read to its end and the whole text was taken.
    Ok,
    /// The words are none of the listed forms. Nothing was read.
    Usage,
    /// The source failed.
    ReadFault,
    /// The sink failed. What it took is a part at the text's front.
    WriteFault,
    /// The input isn't in its grammar, or its message is refused.
    Refused,
    /// There was no memory left. Nothing was written.
    OutOfMemory,
    /// The source gave more than 33,554,432 bytes, or has more than 20,000 lines.
    TooLong,
}

impl Status {
    /// The number that the process ends with.
    pub fn number(self) -> u8
        ensures { result ≡ status_number self }
    {
        match self {
            Status::Ok => 0,
            Status::Usage => 2,
            Status::ReadFault => 3,
            Status::WriteFault => 4,
            Status::Refused => 5,
            Status::OutOfMemory => 6,
            Status::TooLong => 7,
        }
    }
}
