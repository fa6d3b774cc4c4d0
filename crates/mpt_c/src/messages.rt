//! Messages.
ghost use Rattle.std.specs.Prelude.{◌≡◌};
ghost use Rattle.mpt_c_messages.specs.CallCode.{code_number};
ghost use Rattle.mpt_c_messages.specs.DecodeAs.{decode_as_of};
ghost use Rattle.mpt_c_messages.specs.Decoding.{IsDecoded};
ghost use Rattle.mpt_c_messages.specs.Listing.{IsListed};
ghost use Rattle.mpt_c.specs.Answers.{Answers};

use mpt_c_messages::{FaultWords, decode, list};
use std::alloc::Global;

/// The first fault of bytes (mpt.h, `mpt_decode`).
#[unsafe(no_mangle)]
pub extern "C" fn mpt_raw_decode(form: u32, bytes: &[u8], fault: &mut FaultWords) -> u32
    ensures { Answers result (λ code. IsDecoded (decode_as_of form) bytes.now fault.old fault.new code) }
{
    decode(form, bytes, fault).number()
}

/// The listing of bytes (mpt.h, `mpt_list`).
#[unsafe(no_mangle)]
pub extern "C" fn mpt_raw_list(
    alloc: Global,
    form: u32,
    bytes: &[u8],
    text: &mut [u8],
    length: &mut usize,
) -> u32
    ensures { Answers result (λ code. IsListed (decode_as_of form) bytes.now text.old text.new length.old length.new code) }
{
    list(alloc, form, bytes, text, length).number()
}
