//! Worked reads and writes, with pieces of every kind, failing calls, and std's readers and writers.
ghost use Rattle.std.specs.Prelude.{◌<◌};

use super::*;
use std::alloc::{AllocError, Global};
use std::io;
use std::io::{ErrorKind, Read};
use std::test::Fail;

const TEXT: &[u8; 10] = b"0123456789";

fn copy_of(alloc: Global, bytes: &[u8]) -> Result<Vec<u8>, AllocError> {
    bytes.to_vec(alloc)
}

// What reading ten bytes in such pieces gives, where call `failing` fails.
fn read_ten(
    alloc: Global,
    piece: usize,
    failing: u32,
    limit: usize,
) -> Result<Result<Vec<u8>, ReadFault>, AllocError>
    requires { 0 < piece }
{
    let mut calls = Vec::new(alloc);
    calls.push(failing)?;
    let mut source = MemorySource::new(copy_of(alloc, TEXT)?, piece, calls);
    Ok(read_all(alloc, &mut source, limit))
}

#[test]
fn reads_to_the_end(rt: HostRuntime) -> Result<(), Fail> {
    // Pieces of 1, 7 and all bytes: 11, 3 and 2 calls reach the end.
    for (piece, calls) in [(1, 11), (7, 3), (10, 2)] {
        for failing in 0..=calls {
            let read = read_ten(rt.alloc(), piece, failing, 10)?;
            if failing < calls {
                assert!(rt;
                    matches!(&read, Err(ReadFault::Failed)),
                    "piece {piece}, call {failing}"
                );
            } else {
                let bytes = read.map_err(|_| "not read")?;
                assert_eq!(rt; bytes.as_slice(), TEXT.as_slice(), "piece {piece}");
            }
        }
        let long = read_ten(rt.alloc(), piece, calls, 9)?;
        assert!(rt; matches!(&long, Err(ReadFault::TooLong)), "piece {piece}");
    }
    let mut never = NeverSource::new(copy_of(rt.alloc(), TEXT)?, 3);
    let bytes = read_all(rt.alloc(), &mut never, 10).map_err(|_| "not read")?;
    assert_eq!(rt; bytes.as_slice(), TEXT.as_slice());
    Ok(())
}

#[test]
fn writes_the_whole(rt: HostRuntime) -> Result<(), Fail> {
    // Pieces, the room, a failing call, and how many bytes were taken.
    for (piece, room, failing, taken) in [
        (1, 10, 99, 10),
        (7, 10, 99, 10),
        (10, 10, 99, 10),
        (1, 10, 0, 0),
        (1, 10, 4, 4),
        (7, 10, 1, 7),
        (7, 10, 2, 10),
        (7, 8, 99, 8),
        (10, 0, 99, 0),
    ] {
        let mut calls = Vec::new(rt.alloc());
        calls.push(failing)?;
        let mut sink = MemorySink::new(rt.alloc(), piece, room, calls).map_err(|_| "no memory")?;
        let written = write_all(&mut sink, TEXT);
        assert_eq!(rt;
            written.is_ok(),
            taken == 10,
            "piece {piece}, room {room}, call {failing}"
        );
        let want = TEXT.get(..taken).ok_or("too many")?;
        assert_eq!(rt;
            sink.bytes(),
            want,
            "piece {piece}, room {room}, call {failing}"
        );
    }
    let mut never = NeverSink::new();
    assert_eq!(rt; write_all(&mut never, TEXT), Ok(()));
    Ok(())
}

// A reader that gives its bytes, and then fails in this way.
#[derive(Drop)]
struct Broken<'a>(&'a [u8], ErrorKind);

impl Read for Broken<'_> {
    fn read(&mut self, buf: &mut [u8]) -> io::Result<usize> {
        if self.0.is_empty() && !buf.is_empty() {
            return Err(io::Error::from(self.1));
        }
        self.0.read(buf)
    }
}

#[test]
fn reads_and_writes_over_std(rt: HostRuntime) -> Result<(), Fail> {
    let mut source = StdSource::new(TEXT.as_slice());
    let bytes = read_all(rt.alloc(), &mut source, 10).map_err(|_| "not read")?;
    assert_eq!(rt; bytes.as_slice(), TEXT.as_slice());

    // An interrupted read is no end either.
    for kind in [ErrorKind::BrokenPipe, ErrorKind::Interrupted] {
        let mut broken = StdSource::new(Broken(TEXT, kind));
        let read = read_all(rt.alloc(), &mut broken, 10);
        assert!(rt; matches!(&read, Err(ReadFault::Failed)));
    }

    let mut written = Vec::new(rt.alloc());
    let mut sink = StdSink::new(&mut written);
    assert_eq!(rt; write_all(&mut sink, TEXT), Ok(()));
    drop(sink);
    assert_eq!(rt; written.as_slice(), TEXT.as_slice());

    // A writer that is full takes nothing.
    let mut room = [0u8; 4];
    let mut full = StdSink::new(room.as_mut_slice());
    assert_eq!(rt; write_all(&mut full, TEXT), Err(Failed));
    Ok(())
}

// So many bytes, whose number no proof is to compute.
fn many(alloc: Global, count: usize) -> Result<Vec<u8>, AllocError> {
    vec![in alloc; 7u8; count]
}

#[test]
fn reads_much(rt: HostRuntime) -> Result<(), Fail> {
    for (limit, fits) in [(33_554_432, true), (33_554_431, false)] {
        let mut source = NeverSource::new(many(rt.alloc(), 33_554_432)?, 4_096);
        let read = read_all(rt.alloc(), &mut source, limit);
        assert_eq!(rt; read.is_ok(), fits, "limit {limit}");
    }
    Ok(())
}
