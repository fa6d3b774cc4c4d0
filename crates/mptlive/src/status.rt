//! How a run ended.
ghost use Rattle.std.specs.Prelude.{◌≡◌};
ghost use Rattle.mptlive.specs.Run.{status_number};

/// How a run ended. The process ends with its number.
#[derive(Clone, Copy, Debug, PartialEq, Eq)]
pub enum Status {
    /// The plan was read to its end, its session ended quiet, and the whole report was taken.
    Ok,
    /// The words are none of the listed forms. Nothing was read.
    Usage,
    /// The source failed.
    ReadFault,
    /// The sink failed. What it took is a part at the text's front.
    WriteFault,
    /// The input is no plan.
    Refused,
    /// There was no memory left. Nothing was written.
    OutOfMemory,
    /// The source gave more than 33,554,432 bytes, or has more than 20,000 lines, or more than 4,096 that ask something of
    /// the host.
    TooLong,
}

impl Status {
    /// The number that the process ends with.
    pub fn number(self) -> u8
        ensures { result ≡ status_number self }
    {
        match self {
            Status::Ok => 0,
            Status::Usage => 2,
            Status::ReadFault => 3,
            Status::WriteFault => 4,
            Status::Refused => 5,
            Status::OutOfMemory => 6,
            Status::TooLong => 7,
        }
    }
}
