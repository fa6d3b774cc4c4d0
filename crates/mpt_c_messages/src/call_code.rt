//! How a call of C's ends.
ghost use Rattle.std.specs.Prelude.{◌≡◌};
ghost use Rattle.mpt_c_messages.specs.CallCode.{code_number};

/// How a call ends (mpt.h, `mpt_code`).
#[derive(Clone, Copy, Debug, PartialEq, Eq)]
pub enum CallCode {
    /// The call did what it is for.
    Ok,
    /// A number that the call was given names nothing.
    NoSuch,
    /// The bytes are refused.
    Refused,
    /// The buffer is too short. The call says how long it has to be.
    ShortBuffer,
    /// There was no memory left, and nothing changed.
    NoMemory,
    /// There is nothing that the call could do.
    Nothing,
    /// The handle is empty.
    Empty,
}

impl CallCode {
    /// Its number in C.
    pub fn number(self) -> u32
        ensures { result ≡ code_number self }
    {
        match self {
            CallCode::Ok => 0,
            CallCode::NoSuch => 2,
            CallCode::Refused => 3,
            CallCode::ShortBuffer => 4,
            CallCode::NoMemory => 5,
            CallCode::Nothing => 6,
            CallCode::Empty => 7,
        }
    }
}
