//! How much an input may have.
ghost use Rattle.std.specs.Prelude.{◌≡◌, ◌↔◌, IsTrue};
ghost use Rattle.mptlive.specs.Input.{HasTooMuch, asking_count, is_asking, is_asking_word, line_count};

use mpt_lines::Pieces;

/// The most lines.
const MOST_LINES: usize = 20_000;

/// The most lines that ask something of the host.
const MOST_ASKING: usize = 4_096;

/// Whether an input has too many lines, or too many that ask something of the host.
pub fn has_too_much(input: &[u8]) -> bool
    ensures { IsTrue result ↔ HasTooMuch input.now }
{
    count_lines(input) > MOST_LINES || count_asking(input) > MOST_ASKING
}

// How many lines a text has: one for each LF, and one more where bytes follow the last LF.
fn count_lines(text: &[u8]) -> usize
    ensures { result ≡ line_count text.now }
{
    let ended = text.iter().filter(|byte| **byte == b'\n').count();
    match text.last() {
        Some(last) if *last != b'\n' => ended + 1,
        _ => ended,
    }
}

// How many lines of a text ask something of the host.
fn count_asking(text: &[u8]) -> usize
    ensures { result ≡ asking_count text.now }
{
    text.split(|byte| *byte == b'\n')
        .filter(|line| is_asking(line))
        .count()
}

// Whether the line's first word is one of those that ask something of the host.
fn is_asking(line: &[u8]) -> bool
    ensures { result ≡ is_asking line.now }
{
    match Pieces::new(b' ', line).take() {
        Some(word) => is_asking_word(word),
        None => false,
    }
}

fn is_asking_word(word: &[u8]) -> bool
    ensures { result ≡ is_asking_word word.now }
{
    word == b"submit".as_slice()
        || word == b"abort".as_slice()
        || word == b"treset".as_slice()
        || word == b"reset".as_slice()
}
