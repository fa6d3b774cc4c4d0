//! A source over a reader, and a sink over a writer, of the standard library: the trusted edge.
ghost use Rattle.std.specs.Prelude.{◌≡◌, ℕ};

use crate::counts::{count_on, one_more};
use crate::errors::Failed;
use crate::sink::Sink;
use crate::source::Source;
use std::io::{Read, Write};
use std::marker::Model;

/// Gives what a reader reads, and tells of the bytes what the reader tells. It counts the bytes and
/// the errors.
#[derive(Drop)]
pub struct StdSource<R> {
    reader: R,
    given: u64,
    faults: u64,
}

impl<R> Model for StdSource<R> {
    ghost use Rattle.mpt_outside.specs.Standard.{OverReader};

    ghost Value = { OverReader R };

    ghost view = { λ s. record { reader = s.reader; given = s.given; faults = s.faults } };
}

impl<R: Read> StdSource<R> {
    /// A source over this reader.
    pub fn new(reader: R) -> StdSource<R>
        ensures { result ≡ record { reader = reader; given = 0; faults = 0 } }
    {
        StdSource {
            reader,
            given: 0,
            faults: 0,
        }
    }
}

impl<R: Read> Source for StdSource<R> {
    ghost left = { λ s. R.remaining s.reader };

    ghost given = { λ s. s.given };

    ghost faults = { λ s. s.faults };

    /// Reads once. Each error of the reader is a fault, an interruption too: it is never the end.
    fn take(&mut self, buffer: &mut [u8]) -> Result<usize, Failed> {
        match self.reader.read(buffer) {
            Ok(count) => {
                self.given = count_on(self.given, count);
                Ok(count)
            }
            Err(_) => {
                self.faults = one_more(self.faults);
                Err(Failed)
            }
        }
    }
}

/// Puts what it takes to a writer, and tells of the bytes what the writer tells. It counts the errors.
#[derive(Drop)]
pub struct StdSink<W> {
    writer: W,
    faults: u64,
}

impl<W> Model for StdSink<W> {
    ghost use Rattle.mpt_outside.specs.Standard.{OverWriter};

    ghost Value = { OverWriter W };

    ghost view = { λ s. record { writer = s.writer; faults = s.faults } };
}

impl<W: Write> StdSink<W> {
    /// A sink over this writer.
    pub fn new(writer: W) -> StdSink<W>
        ensures { result ≡ record { writer = writer; faults = 0 } }
    {
        StdSink { writer, faults: 0 }
    }
}

impl<W: Write> Sink for StdSink<W> {
    ghost taken = { λ s. W.contents s.writer };

    ghost faults = { λ s. s.faults };

    /// Writes once. Each error of the writer is a fault, and so is a piece that isn't empty and of
    /// which it takes nothing.
    fn put(&mut self, piece: &[u8]) -> Result<usize, Failed> {
        match self.writer.write(piece) {
            Ok(count) if count > 0 || piece.is_empty() => Ok(count),
            _ => {
                self.faults = one_more(self.faults);
                Err(Failed)
            }
        }
    }
}
