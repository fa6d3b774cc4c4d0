//! A source and a sink in memory.
ghost use Rattle.std.specs.Prelude.{◌≡◌, ℕ, ◌<◌, ◌≤◌, ◌-◌, ◌↔◌, ◌⊎◌, Some, length, take, drop, vec_len, IfOk, OnOk, OnErr, IsErr, MatchResult, Contains};
ghost use Rattle.std.specs.Io.{ReadsAtMost, WritesAtMost};
ghost use Rattle.std.specs.Io.KnownBytes.{ReadConsumes, WriteAppends};
ghost use Rattle.mpt_outside.specs.Counts.{counted, Rose, NeverFalls};
ghost use Rattle.mpt_outside.specs.Memory.{moved, full_source, gives, fails_to_give, empty_sink, takes, fails_to_take};

use crate::counts::{is_listed, one_more};
use crate::errors::{Failed, OutOfMemory};
use crate::pieces::give_piece;
use crate::sink::Sink;
use crate::source::Source;
use std::alloc::Global;
use std::marker::Model;

/// Gives bytes in memory a piece at a time, and fails at the calls that were listed.
#[derive(Drop)]
pub struct MemorySource {
    bytes: Vec<u8>,
    at: usize,
    piece: usize,
    failing: Vec<u32>,
    calls: u64,
    faults: u64,
}

impl Model for MemorySource {
    ghost use Rattle.std.specs.Prelude.{drop, ◌<◌, ◌≤◌, vec_len};
    ghost use Rattle.mpt_outside.specs.Memory.{SourceInMemory};

    ghost Value = { SourceInMemory };

    ghost view = { λ s. record { left = drop s.at s.bytes.items; given = s.at; piece = s.piece; failing = s.failing.items; calls = s.calls; faults = s.faults } };

    ghost invariant = { λ s. (s.at ≤ vec_len s.bytes) × (0 < s.piece) };
}

impl MemorySource {
    /// A source of these bytes, at most `piece` of them per call, and at least 1. The calls with the
    /// numbers in `failing` fail, counted from 0.
    pub fn new(bytes: Vec<u8>, piece: usize, failing: Vec<u32>) -> MemorySource
        requires { 0 < piece }
        ensures { result ≡ full_source bytes.items piece failing.items }
    {
        MemorySource {
            bytes,
            at: 0,
            piece,
            failing,
            calls: 0,
            faults: 0,
        }
    }
}

impl Source for MemorySource {
    ghost left = { λ s. Some s.left };

    ghost given = { λ s. s.given };

    ghost faults = { λ s. s.faults };

    /// Fails exactly at the listed calls, and else gives as many bytes as it can.
    fn take(&mut self, buffer: &mut [u8]) -> Result<usize, Failed>
        ensures fails { IsErr result ↔ Contains self.old.failing self.old.calls }
        ensures failing { OnErr result (self.new ≡ fails_to_give self.old) }
        ensures giving { IfOk result (λ k. self.new ≡ gives self.old k) }
        ensures how_many { IfOk result (λ k. k ≡ moved self.old.piece (length self.old.left) (length buffer.old)) }
        ensures behind { IfOk result (λ k. drop k buffer.new ≡ drop k buffer.old) }
        ensures unwritten { OnErr result (buffer.new ≡ buffer.old) }

        // As of every source.
        ensures within { ReadsAtMost result buffer.new }
        ensures bytes { ReadConsumes (Some self.old.left) (Some self.new.left) result buffer.new }
        ensures count { MatchResult result
            (λ k. self.new.given ≡ counted self.old.given k)
            (λ _. self.new.given ≡ self.old.given) }
        ensures failed { OnErr result (Rose self.old.faults self.new.faults) }
        ensures steady { OnOk result (self.new.faults ≡ self.old.faults) }
        ensures never_falls { NeverFalls self.old.faults self.new.faults }
    {
        let call = self.calls;
        self.calls = one_more(call);
        if is_listed(&self.failing, call) {
            self.faults = one_more(self.faults);
            return Err(Failed);
        }
        let count = give_piece(&self.bytes, self.at, self.piece, buffer);
        self.at += count;
        Ok(count)
    }
}

/// Takes bytes into memory a piece at a time, and fails at the calls that were listed and where its
/// room is used up. It took its memory as it was made.
#[derive(Drop)]
pub struct MemorySink {
    taken: Vec<u8>,
    room: usize,
    piece: usize,
    failing: Vec<u32>,
    calls: u64,
    faults: u64,
}

impl Model for MemorySink {
    ghost use Rattle.std.specs.Prelude.{◌<◌, ◌≤◌, vec_len, vec_capacity};
    ghost use Rattle.mpt_outside.specs.Memory.{SinkInMemory};

    ghost Value = { SinkInMemory };

    ghost view = { λ s. record { taken = s.taken.items; room = s.room; piece = s.piece; failing = s.failing.items; calls = s.calls; faults = s.faults } };

    ghost invariant = { λ s. (vec_len s.taken ≤ s.room) × (s.room ≤ vec_capacity s.taken) × (0 < s.piece) };
}

impl MemorySink {
    /// A sink with room for so many bytes, at most `piece` of them per call, and at least 1. The calls
    /// with the numbers in `failing` fail, counted from 0.
    pub fn new(
        alloc: Global,
        piece: usize,
        room: usize,
        failing: Vec<u32>,
    ) -> Result<MemorySink, OutOfMemory>
        requires { 0 < piece }
        ensures { IfOk result (λ sink. sink ≡ empty_sink piece room failing.items) }
    {
        Ok(MemorySink {
            taken: Vec::with_capacity(alloc, room)?,
            room,
            piece,
            failing,
            calls: 0,
            faults: 0,
        })
    }

    /// The bytes that it took.
    pub fn bytes(&self) -> &[u8]
        ensures { result.now ≡ self.now.taken }
    {
        &self.taken
    }
}

impl Sink for MemorySink {
    ghost taken = { λ s. Some s.taken };

    ghost faults = { λ s. s.faults };

    /// Fails exactly at the listed calls, and where a piece that isn't empty meets no room; else takes
    /// as many bytes as it can.
    fn put(&mut self, piece: &[u8]) -> Result<usize, Failed>
        ensures fails { IsErr result ↔ (Contains self.old.failing self.old.calls
            ⊎ ((0 < length piece.now) × (self.old.room ≤ length self.old.taken))) }
        ensures failing { OnErr result (self.new ≡ fails_to_take self.old) }
        ensures taking { IfOk result (λ k. self.new ≡ takes self.old (take k piece.now)) }
        ensures how_many { IfOk result (λ k. k ≡ moved self.old.piece (length piece.now) (self.old.room - length self.old.taken)) }

        // As of every sink.
        ensures within { WritesAtMost result piece.now }
        ensures some { IfOk result (λ k. 0 < length piece.now → 0 < k) }
        ensures bytes { WriteAppends (Some self.old.taken) (Some self.new.taken) result piece.now }
        ensures failed { OnErr result (Rose self.old.faults self.new.faults) }
        ensures steady { OnOk result (self.new.faults ≡ self.old.faults) }
        ensures never_falls { NeverFalls self.old.faults self.new.faults }
    {
        let call = self.calls;
        self.calls = one_more(call);
        let room = self.room - self.taken.len();
        if is_listed(&self.failing, call) || (room == 0 && !piece.is_empty()) {
            self.faults = one_more(self.faults);
            return Err(Failed);
        }
        let count = self.piece.min(piece.len()).min(room);
        self.taken.extend_from_slice(&piece[..count]).unwrap();
        Ok(count)
    }
}
