//! A source and a sink that never fail.
ghost use Rattle.std.specs.Prelude.{◌≡◌, ℕ, ◌<◌, Some, None, Ok, length, drop, IfOk, OnOk, OnErr, MatchResult};
ghost use Rattle.std.specs.Io.{ReadsAtMost, WritesAtMost};
ghost use Rattle.std.specs.Io.KnownBytes.{ReadConsumes};
ghost use Rattle.mpt_outside.specs.Counts.{counted};
ghost use Rattle.mpt_outside.specs.Memory.{moved};
ghost use Rattle.mpt_outside.specs.Never.{surely_gives};

use crate::errors::Failed;
use crate::pieces::give_piece;
use crate::sink::Sink;
use crate::source::Source;
use std::marker::Model;

/// Gives bytes in memory a piece at a time, and never fails.
#[derive(Drop)]
pub struct NeverSource {
    bytes: Vec<u8>,
    at: usize,
    piece: usize,
}

impl Model for NeverSource {
    ghost use Rattle.std.specs.Prelude.{drop, ◌<◌, ◌≤◌, vec_len};
    ghost use Rattle.mpt_outside.specs.Never.{SureSource};

    ghost Value = { SureSource };

    ghost view = { λ s. record { left = drop s.at s.bytes.items; given = s.at; piece = s.piece } };

    ghost invariant = { λ s. (s.at ≤ vec_len s.bytes) × (0 < s.piece) };
}

impl NeverSource {
    /// A source of these bytes, at most `piece` of them per call, and at least 1.
    pub fn new(bytes: Vec<u8>, piece: usize) -> NeverSource
        requires { 0 < piece }
        ensures { result ≡ record { left = bytes.items; given = 0; piece = piece } }
    {
        NeverSource {
            bytes,
            at: 0,
            piece,
        }
    }
}

impl Source for NeverSource {
    ghost left = { λ s. Some s.left };

    ghost given = { λ s. s.given };

    ghost faults = { λ _. 0 };

    /// Gives as many bytes as it can.
    fn take(&mut self, buffer: &mut [u8]) -> Result<usize, Failed>
        ensures gives { result ≡ Ok (moved self.old.piece (length self.old.left) (length buffer.old)) }
        ensures giving { IfOk result (λ k. self.new ≡ surely_gives self.old k) }
        ensures behind { IfOk result (λ k. drop k buffer.new ≡ drop k buffer.old) }

        // As of every source.
        ensures within { ReadsAtMost result buffer.new }
        ensures bytes { ReadConsumes (Some self.old.left) (Some self.new.left) result buffer.new }
        ensures count { IfOk result (λ k. self.new.given ≡ counted self.old.given k) }
    {
        let count = give_piece(&self.bytes, self.at, self.piece, buffer);
        self.at += count;
        Ok(count)
    }
}

/// Takes each piece whole, keeps nothing and never fails.
#[derive(Clone, Copy, Debug, Default)]
pub struct NeverSink;

impl NeverSink {
    /// Such a sink.
    pub fn new() -> NeverSink {
        NeverSink
    }
}

impl Sink for NeverSink {
    ghost taken = { λ _. None };

    ghost faults = { λ _. 0 };

    /// Takes the piece whole.
    fn put(&mut self, piece: &[u8]) -> Result<usize, Failed>
        ensures { result ≡ Ok (length piece.now) }
    {
        Ok(piece.len())
    }
}
