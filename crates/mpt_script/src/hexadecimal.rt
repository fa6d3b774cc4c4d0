//! Bytes written as hexadecimal digits.
ghost use Rattle.std.specs.Prelude.{◌≡◌, ◌⊎◌, IfOk, IfErr};
ghost use Rattle.mpt_text.specs.Hexadecimal.{hexadecimal};
ghost use Rattle.mpt_lines.specs.declared.fault.Cause.TheVariants as cause;

use mpt_lines::{Cause, ScriptFault};
use mpt_text::{HexFault, parse_hex};
use std::alloc::Global;

/// The bytes that a text's hexadecimal digits name, two digits for each byte and in either case.
/// Spaces, tabs, CR and LF are left out.
///
/// Any other text is refused at line 1 with the cause `Hex`.
pub fn read_hex(alloc: Global, text: &[u8]) -> Result<Vec<u8>, ScriptFault>
    ensures read { IfOk result (λ bytes. hexadecimal text.now ≡ Some bytes.items) }
    ensures refused { IfErr result (λ e. (e ≡ ScriptFault.OutOfMemory) ⊎ ((e ≡ ScriptFault.At 1 cause.Hex) × (hexadecimal text.now ≡ None))) }
{
    match parse_hex(alloc, text) {
        Ok(bytes) => Ok(bytes),
        Err(HexFault::OutOfMemory) => Err(ScriptFault::OutOfMemory),
        Err(HexFault::Form) => Err(ScriptFault::At {
            line: 1,
            cause: Cause::Hex,
        }),
    }
}
