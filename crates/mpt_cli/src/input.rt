//! The lines of the input.
ghost use Rattle.std.specs.Prelude.{◌≡◌};
ghost use Rattle.mpt_cli.specs.Input.{line_count};

/// How many lines a text has: one for each LF, and one more where bytes follow the last LF.
pub fn count_lines(text: &[u8]) -> usize
    ensures { result ≡ line_count text.now }
{
    let ended = text.iter().filter(|byte| **byte == b'\n').count();
    match text.last() {
        Some(last) if *last != b'\n' => ended + 1,
        _ => ended,
    }
}
