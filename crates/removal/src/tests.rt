//! A device that comes, goes and comes again.
use super::*;

const A: Address = 0x5000_c500_0000_0001;

const B: Address = 0x5000_c500_0000_0002;

// A table in which 0x0009 is ready with this address.
fn with_ready(address: Address) -> Handles {
    let mut handles = Handles::new();
    let _ = handles.on_added(0x0009);
    handles.grant(0x0009, 257);
    let _ = handles.on_page(0x0009, 257, Some(address));
    handles
}

#[test]
fn discovers(rt: HostRuntime) {
    let mut handles = with_ready(A);
    assert_eq!(rt; handles.of(A), Some(0x0009));
    assert_eq!(rt; handles.on_added(0x0009), Err(NotAbsent));
    assert_eq!(rt; handles.on_added(0x0048), Ok(()));
    assert_eq!(rt; handles.phase(0x0048), Phase::WaitRead);
    handles.grant(0x0048, 258);
    assert_eq!(rt; handles.on_page(0x0048, 257, Some(B)), false);
    assert_eq!(rt; handles.on_page(0x0048, 258, Some(B)), true);
    assert_eq!(rt; handles.of(B), Some(0x0048));
    handles.clear();
    assert_eq!(rt; handles.of(B), None);
    assert_eq!(rt; handles.phase(0x0048), Phase::Absent);
}

#[test]
fn removes(rt: HostRuntime) {
    let mut handles = with_ready(A);
    assert_eq!(rt; handles.on_gone(0x0009), Some(A));
    assert_eq!(rt; handles.of(A), None);
    assert_eq!(rt; handles.on_page(0x0009, 257, Some(B)), false);
    handles.grant(0x0009, 300);
    assert_eq!(rt; handles.on_removed(0x0009, 300), false);
    assert_eq!(rt; handles.on_task_done(0x0009, 301), false);
    assert_eq!(rt; handles.on_task_done(0x0009, 300), true);
    handles.grant(0x0009, 301);
    assert_eq!(rt; handles.phase(0x0009), Phase::Removing(301));
    assert_eq!(rt; handles.on_removed(0x0009, 301), true);
    assert_eq!(rt; handles.on_added(0x0009), Ok(()));
    ready_is_removed_by_handshake();
}
