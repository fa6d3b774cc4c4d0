//! Bytes read from hexadecimal digits.
ghost use Rattle.std.specs.Prelude.{◌≡◌, ◌<◌, Some, None, IfOk, IfSome, IsErrOf};
ghost use Rattle.hex.specs.Hex.{hex_digit_value};
ghost use Rattle.mpt_text.specs.Hexadecimal.{is_white, hexadecimal};

use crate::text::OutOfMemory;
use std::alloc::{AllocFailed, Global};

/// Why a text names no bytes.
#[derive(Clone, Copy, Debug, PartialEq, Eq)]
pub enum HexFault {
    /// A byte is neither a hexadecimal digit nor white space, or the number of digits is odd.
    Form,
    /// There was no memory left.
    OutOfMemory,
}

impl From<OutOfMemory> for HexFault {
    ghost use Rattle.std.specs.Prelude.{◌≡◌};
    ghost use Rattle.mpt_text.specs.declared.hexadecimal.HexFault.TheVariants as fault;

    ghost from_gives = { λ _ e. e ≡ fault.OutOfMemory };

    fn from(_error: OutOfMemory) -> HexFault {
        HexFault::OutOfMemory
    }
}

impl From<AllocFailed<u8>> for HexFault {
    ghost use Rattle.std.specs.Prelude.{◌≡◌};
    ghost use Rattle.mpt_text.specs.declared.hexadecimal.HexFault.TheVariants as fault;

    ghost from_gives = { λ _ e. e ≡ fault.OutOfMemory };

    fn from(_error: AllocFailed<u8>) -> HexFault {
        HexFault::OutOfMemory
    }
}

/// The bytes that a text's hexadecimal digits name, two digits for each byte and in either case.
/// Spaces, tabs, CR and LF are left out.
pub fn parse_hex(alloc: Global, text: &[u8]) -> Result<Vec<u8>, HexFault>
    ensures read { IfOk result (λ bytes. hexadecimal text.now ≡ Some bytes.items) }
    ensures refused { IsErrOf result HexFault.Form → hexadecimal text.now ≡ None }
{
    let mut bytes = Vec::with_capacity(alloc, text.len() / 2)?;
    let mut high = None;
    for byte in text {
        if is_white(*byte) {
            continue;
        }
        let Some(digit) = digit_value(*byte) else {
            return Err(HexFault::Form);
        };
        match high {
            None => high = Some(digit),
            Some(first) => {
                bytes.push(first * 16 + digit)?;
                high = None;
            }
        }
    }
    match high {
        None => Ok(bytes),
        Some(_) => Err(HexFault::Form),
    }
}

// Whether the byte is white space: a space, a tab, CR or LF.
fn is_white(byte: u8) -> bool
    ensures { result ≡ is_white byte }
{
    matches!(byte, b' ' | b'\t' | b'\r' | b'\n')
}

// The value of a digit in either case. A table, where ranges would be branches that digits mispredict.
fn digit_value(byte: u8) -> Option<u8>
    ensures value { result ≡ hex_digit_value byte }
    ensures within { IfSome result (λ digit. digit < 16) }
{
    let value = DIGIT_VALUES[byte as usize];
    if value < 16 { Some(value) } else { None }
}

// The value of each byte that is a digit, and 16 for each that is none.
#[rattlefmt::skip]
static DIGIT_VALUES: [u8; 256] = [
    16, 16, 16, 16, 16, 16, 16, 16, 16, 16, 16, 16, 16, 16, 16, 16,
    16, 16, 16, 16, 16, 16, 16, 16, 16, 16, 16, 16, 16, 16, 16, 16,
    16, 16, 16, 16, 16, 16, 16, 16, 16, 16, 16, 16, 16, 16, 16, 16,
    0, 1, 2, 3, 4, 5, 6, 7, 8, 9, 16, 16, 16, 16, 16, 16,
    16, 10, 11, 12, 13, 14, 15, 16, 16, 16, 16, 16, 16, 16, 16, 16,
    16, 16, 16, 16, 16, 16, 16, 16, 16, 16, 16, 16, 16, 16, 16, 16,
    16, 10, 11, 12, 13, 14, 15, 16, 16, 16, 16, 16, 16, 16, 16, 16,
    16, 16, 16, 16, 16, 16, 16, 16, 16, 16, 16, 16, 16, 16, 16, 16,
    16, 16, 16, 16, 16, 16, 16, 16, 16, 16, 16, 16, 16, 16, 16, 16,
    16, 16, 16, 16, 16, 16, 16, 16, 16, 16, 16, 16, 16, 16, 16, 16,
    16, 16, 16, 16, 16, 16, 16, 16, 16, 16, 16, 16, 16, 16, 16, 16,
    16, 16, 16, 16, 16, 16, 16, 16, 16, 16, 16, 16, 16, 16, 16, 16,
    16, 16, 16, 16, 16, 16, 16, 16, 16, 16, 16, 16, 16, 16, 16, 16,
    16, 16, 16, 16, 16, 16, 16, 16, 16, 16, 16, 16, 16, 16, 16, 16,
    16, 16, 16, 16, 16, 16, 16, 16, 16, 16, 16, 16, 16, 16, 16, 16,
    16, 16, 16, 16, 16, 16, 16, 16, 16, 16, 16, 16, 16, 16, 16, 16,
];
