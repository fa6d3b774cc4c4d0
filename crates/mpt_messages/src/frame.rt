//! Whole frames.
ghost use Rattle.std.specs.Prelude.{◌≡◌, ℕ, ◌-◌, ◌<◌, IsTrue, drop, replicate, slice_index};
ghost use Rattle.mpt_messages.specs.FrameBytes.{message_frame};
ghost use Rattle.mpt_messages.specs.Message.{MessageStands, message_fit, message_length};

use crate::message::{Message, encode};

// Writes the whole frame: the message's bytes, and zeros past them. Gives the message's length.
pub(crate) fn write_frame(m: &Message, out: &mut [u8; 128]) -> usize
    requires { IsTrue (message_fit m.now) }
    ensures long { result ≡ message_length m.now }
    ensures stands { MessageStands m.now out.new }
    ensures rest { drop (message_length m.now) out.new
        ≡ replicate (128 - message_length m.now) 0 }
    ensures whole { out.new ≡ message_frame m.now }
{
    *out = [0; 128];
    let length = encode(m, out);
    are_bytes(out);
    length
}

// Each element is below 256: a proof knows it of a slice that is passed, and not of what a call left.
fn are_bytes(frame: &[u8])
    ensures { (k : ℕ) → slice_index frame.now k < 256 }
{}
