//! The first fault of bytes, as a call of C's says it.
ghost use Rattle.mpt_c_messages.specs.DecodeAs.{decode_as_of};
ghost use Rattle.mpt_c_messages.specs.Decoding.{IsDecoded, IsDecodedAs};

use crate::call_code::CallCode;
use crate::decode_as::DecodeAs;
use crate::fault_words::FaultWords;
use crate::reading::first_fault;

/// Reads the bytes as what the number names: Ok, or Refused with their first fault in `fault`; NoSuch
/// where the number names nothing. Else the fault stays.
pub fn decode(form: u32, bytes: &[u8], fault: &mut FaultWords) -> CallCode
    ensures { IsDecoded (decode_as_of form) bytes.now fault.old fault.new result }
{
    match DecodeAs::from_number(form) {
        Some(read_as) => decode_as(read_as, bytes, fault),
        None => CallCode::NoSuch,
    }
}

fn decode_as(read_as: DecodeAs, bytes: &[u8], fault: &mut FaultWords) -> CallCode
    ensures { IsDecodedAs read_as bytes.now fault.old fault.new result }
{
    match first_fault(read_as, bytes) {
        None => CallCode::Ok,
        Some(first) => {
            *fault = FaultWords::of(first);
            CallCode::Refused
        }
    }
}
