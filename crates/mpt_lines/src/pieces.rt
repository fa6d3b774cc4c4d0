//! The pieces of a text between separators: the lines of a text, the words of a line.
ghost use Rattle.std.specs.Prelude.{◌≡◌, ℕ, List, IsTrue, bytes_eq, [], ◌∷◌, MatchOption, MatchResult, IfSome, ◌<◌, ◌==◌, length};
ghost use Rattle.std.specs.List.{position_from};
ghost use Rattle.mpt_lines.specs.Words.{is_name, nothing, one, pieces, three, two};

use crate::fault::Cause;
use std::marker::Model;

/// The pieces that are left of a text. A contract sees them as their list.
#[derive(Drop)]
pub struct Pieces<'a> {
    separator: u8,
    rest: Option<&'a [u8]>,
}

impl<'a> Model for Pieces<'a> {
    ghost use Rattle.std.specs.Prelude.{ℕ, List};

    ghost Value = { List (List ℕ) };

    ghost use Rattle.mpt_lines.specs.Left.{pieces_left};

    ghost view = { λ p. pieces_left p.separator p.rest };
}

impl<'a> Pieces<'a> {
    /// The pieces of a text.
    pub fn new(separator: u8, text: &'a [u8]) -> Pieces<'a>
        ensures { result ≡ pieces separator text.now }
    {
        Pieces {
            separator,
            rest: Some(text),
        }
    }

    /// The next piece, if one is left.
    pub fn take(&mut self) -> Option<&'a [u8]>
        ensures { MatchOption result ((self.old ≡ []) × (self.new ≡ [])) (λ piece. self.old ≡ piece.now ∷ self.new) }
    {
        let rest = self.rest?;
        let separator = self.separator;
        match place_of(separator, rest) {
            Some(at) => {
                self.rest = Some(&rest[at + 1..]);
                Some(&rest[..at])
            }
            None => {
                self.rest = None;
                Some(rest)
            }
        }
    }

    /// Whether no piece is left.
    pub fn is_empty(&self) -> bool
        ensures { result ≡ (length self.now == 0) }
    {
        self.rest.is_none()
    }

    /// Checks that no piece is left.
    pub fn none(mut self) -> Result<(), Cause>
        ensures { result ≡ nothing self.entry }
    {
        match self.take() {
            None => Ok(()),
            Some(_) => Err(Cause::Form),
        }
    }

    /// The one piece that is left.
    pub fn one(mut self) -> Result<&'a [u8], Cause>
        ensures { MatchResult result (λ w. one self.entry ≡ Ok w.now) (λ e. one self.entry ≡ Err e) }
    {
        let Some(first) = self.take() else {
            return Err(Cause::Form);
        };
        self.none()?;
        Ok(first)
    }

    /// The two pieces that are left.
    pub fn two(mut self) -> Result<(&'a [u8], &'a [u8]), Cause>
        ensures { MatchResult result (λ w. two self.entry ≡ Ok (w.0.now, w.1.now)) (λ e. two self.entry ≡ Err e) }
    {
        let Some(first) = self.take() else {
            return Err(Cause::Form);
        };
        let second = self.one()?;
        Ok((first, second))
    }

    /// The three pieces that are left.
    pub fn three(mut self) -> Result<(&'a [u8], &'a [u8], &'a [u8]), Cause>
        ensures { MatchResult result (λ w. three self.entry ≡ Ok (w.0.now, w.1.now, w.2.now)) (λ e. three self.entry ≡ Err e) }
    {
        let Some(first) = self.take() else {
            return Err(Cause::Form);
        };
        let (second, third) = self.two()?;
        Ok((first, second, third))
    }
}

// Where the separator first stands.
fn place_of(separator: u8, text: &[u8]) -> Option<usize>
    ensures at { result ≡ position_from (λ byte. byte == separator) 0 text.now }
    ensures within { IfSome result (λ at. at < length text.now) }
{
    text.iter().position(|byte| *byte == separator)
}

/// A word as text. One that isn't UTF-8 is no keyword, and neither is the empty text that stands
/// for it.
pub(crate) fn text_of(word: &[u8]) -> &str
    ensures { (name : List ℕ) → IsTrue (is_name name) → bytes_eq result.now name ≡ bytes_eq word.now name }
{
    match std::str::from_utf8(word) {
        Ok(text) => text,
        Err(_) => "",
    }
}
