//! The words of a line that name a value, and the ranges of numbers.
ghost use Rattle.std.specs.Prelude.{◌≡◌, ◌≤◌, ◌==◌, ◌/◌, ◌<◌, ◌^◌, IfOk, length};
ghost use Rattle.std.specs.List.{list_all};
ghost use Rattle.mpt_lines.specs.Numbers.{address, byte, cdb, checked_bytes, is_decimal_digit, is_numeral, number, within, word_number};
ghost use Rattle.hex.specs.Hex.{is_hex_digit};

use crate::fault::Cause;
use scsi_disk::Cdb;

/// A number that stands for all those that are outside every range.
const TOO_GREAT: u128 = 1 << 64;

/// The number that decimal digits name, without leading zeros. From 2^64 on it is 2^64.
pub(crate) fn number(word: &[u8]) -> Result<u128, Cause>
    ensures { result ≡ number word.now }
{
    if !is_numeral(word) {
        return Err(Cause::Form);
    }
    let mut value = 0;
    for digit in word {
        value = (value * 10 + (*digit as u128).saturating_sub(48)).min(TOO_GREAT);
    }
    Ok(value)
}

/// The number below 2^64 that a word names in decimal, or none where the word has a sign, leading
/// zeros or no number, or the number is greater.
pub fn word_number(word: &[u8]) -> Option<u64>
    ensures { result ≡ word_number word.now }
{
    within(0, u64::MAX, number(word).ok()?).ok()
}

// Whether the word is decimal digits without leading zeros.
fn is_numeral(word: &[u8]) -> bool
    ensures { result ≡ is_numeral word.now }
{
    word.len() >= 1 && are_digits(word) && (word.len() == 1 || word[0] != b'0')
}

fn are_digits(word: &[u8]) -> bool
    ensures { result ≡ list_all is_decimal_digit word.now }
{
    word.iter().all(|digit| *digit >= b'0' && *digit <= b'9')
}

/// A number, if it is in its range.
pub(crate) fn within(low: u64, high: u64, value: u128) -> Result<u64, Cause>
    ensures value { result ≡ within low high value }
    ensures high { IfOk result (λ v. v ≤ high) }
{
    if low as u128 <= value && value <= high as u128 {
        Ok(value as u64)
    } else {
        Err(Cause::Range)
    }
}

/// The address that 16 hexadecimal digits name, in either case.
pub(crate) fn address(word: &[u8]) -> Result<u64, Cause>
    ensures { result ≡ address word.now }
{
    let mut bytes = [0; 8];
    match hex::decode_to_slice(word, &mut bytes) {
        Ok(()) => Ok(u64::from_be_bytes(bytes)),
        Err(_) => Err(Cause::Form),
    }
}

/// The byte that two hexadecimal digits name, in either case.
pub(crate) fn byte(word: &[u8]) -> Result<u8, Cause>
    ensures { result ≡ byte word.now }
{
    let mut bytes = [0; 1];
    match hex::decode_to_slice(word, &mut bytes) {
        Ok(()) => Ok(bytes[0]),
        Err(_) => Err(Cause::Form),
    }
}

/// Checks that a word is two hexadecimal digits for each of one byte or more.
pub(crate) fn check_bytes(word: &[u8]) -> Result<(), Cause>
    ensures { result ≡ checked_bytes word.now }
{
    if word.len() > 0 && word.len() % 2 == 0 && are_hexadecimal(word) {
        Ok(())
    } else {
        Err(Cause::Form)
    }
}

fn are_hexadecimal(word: &[u8]) -> bool
    ensures { result ≡ list_all is_hex_digit word.now }
{
    word.iter().all(|digit| digit.is_ascii_hexdigit())
}

/// The command descriptor block of a word's bytes, of which there are at most 32.
pub(crate) fn cdb(word: &[u8]) -> Result<Cdb, Cause>
    ensures { result ≡ cdb word.now }
{
    let len = word.len() / 2;
    if len > Cdb::MAX_LEN {
        return Err(Cause::Range);
    }
    let mut bytes = [0; Cdb::MAX_LEN];
    match hex::decode_to_slice(word, &mut bytes[..len]) {
        Ok(()) => Ok(Cdb::new(&bytes[..len])),
        Err(_) => Err(Cause::Form),
    }
}
