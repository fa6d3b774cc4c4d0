//! What bytes are read as.
ghost use Rattle.std.specs.Prelude.{◌≡◌};
ghost use Rattle.mpt_c_messages.specs.DecodeAs.{decode_as_of};

use mpt_messages::Kind;

/// What bytes are read as (mpt.h, `mpt_form`).
#[derive(Clone, Copy, Debug, PartialEq, Eq)]
pub enum DecodeAs {
    /// A request that travels in this way.
    Request(Kind),
    /// A reply.
    Reply,
    /// A request descriptor.
    Post,
    /// A reply descriptor.
    Answer,
    /// A SAS Device Page 0.
    Page0,
}

impl DecodeAs {
    /// What this number names, or none.
    pub fn from_number(number: u32) -> Option<DecodeAs>
        ensures { result ≡ decode_as_of number }
    {
        match number {
            0 => Some(DecodeAs::Request(Kind::ScsiIo)),
            1 => Some(DecodeAs::Request(Kind::HighPriority)),
            2 => Some(DecodeAs::Request(Kind::Default)),
            3 => Some(DecodeAs::Request(Kind::Handshake)),
            4 => Some(DecodeAs::Reply),
            5 => Some(DecodeAs::Post),
            6 => Some(DecodeAs::Answer),
            7 => Some(DecodeAs::Page0),
            _ => None,
        }
    }
}
