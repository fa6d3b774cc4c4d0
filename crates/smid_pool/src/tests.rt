//! Worked sequences.
use crate::{Class, NoIdentifier, OutOfMemory, Pool, Smid};
use std::alloc::Global;
use std::process::Abort;
use std::test::Fail;

// Opens every identifier of a class in a new pool, with its own number as record.
fn opens_all(
    rt: &impl Abort,
    alloc: Global,
    class: Class,
    first: Smid,
    count: u16,
) -> Result<(), OutOfMemory> {
    let mut pool = Pool::new(alloc)?;
    assert_eq!(rt; pool.free_count(class), count);
    for i in 0..count {
        let smid = first.wrapping_add(i);
        assert_eq!(rt; pool.open(class, smid), Ok(smid));
        assert_eq!(rt; pool.get(smid).copied(), Some(smid));
    }
    assert_eq!(rt; pool.free_count(class), 0);
    assert_eq!(rt; pool.open(class, 7), Err((NoIdentifier, 7)));
    Ok(())
}

#[test]
fn classes(rt: HostRuntime) -> Result<(), Fail> {
    let cases = [
        (Class::ScsiIo, 1, 256),
        (Class::High, 257, 8),
        (Class::Internal, 265, 16),
    ];
    for (class, first, count) in cases {
        opens_all(&rt, rt.alloc(), class, first, count)?;
    }
    Ok(())
}

#[test]
fn parks_and_closes(rt: HostRuntime) -> Result<(), Fail> {
    let mut pool = Pool::new(rt.alloc())?;
    for i in 1..=3u16 {
        assert_eq!(rt; pool.open(Class::ScsiIo, i), Ok(i));
    }
    assert!(rt; pool.get(2).is_some());
    assert_eq!(rt; pool.park(2), 2);
    assert_eq!(rt; pool.get(2).copied(), None);
    assert_eq!(rt; pool.free_count(Class::ScsiIo), 253);
    assert_eq!(rt; pool.open(Class::ScsiIo, 4), Ok(4));
    assert!(rt; pool.is_parked(2));
    assert_eq!(rt; pool.close(2), None);
    assert!(rt; pool.get(3).is_some());
    assert_eq!(rt; pool.close(3), Some(3));
    assert_eq!(rt; pool.open(Class::ScsiIo, 5), Ok(2));
    assert_eq!(rt; pool.open(Class::ScsiIo, 6), Ok(3));
    assert_eq!(rt; pool.get(0).copied(), None);
    assert_eq!(rt; pool.get(281).copied(), None);
    pool.clear();
    assert_eq!(rt; pool.free_count(Class::ScsiIo), 256);
    assert_eq!(rt; pool.open(Class::ScsiIo, 7), Ok(1));
    Ok(())
}
