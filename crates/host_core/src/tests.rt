//! Worked calls of the host.
use crate::{Host, HostFault, HostFrame, HostSmid};
use mpt_trace::Address;
use removal::Phase;
use scsi_disk::{Bytes, Cdb, Command};
use std::alloc::Global;
use std::test::Fail;

const A: Address = 0x5000_c500_0000_0001;

// TEST UNIT READY.
fn ready(alloc: Global) -> Command {
    Command {
        lun: 0,
        cdb: Cdb::new(&[0; 6]),
        len: 0,
        payload: Bytes::empty(alloc),
    }
}

#[test]
fn a_new_host_refuses(rt: HostRuntime) -> Result<(), Fail> {
    let mut host = Host::new(rt.alloc())?;
    assert_eq!(rt; host.reserve(), Ok(()));
    assert_eq!(rt;
        host.submit(1, A, ready(rt.alloc())),
        Err(HostFault::NotOperational)
    );
    assert_eq!(rt; host.abort(1), Err(HostFault::NotOperational));
    assert_eq!(rt; host.target_reset(A), Err(HostFault::NotOperational));
    assert_eq!(rt; host.diag_reset(), Err(HostFault::NotStarted));
    assert_eq!(rt; host.unit_reset(), Err(HostFault::NotOperational));
    assert!(rt; !host.waits());
    Ok(())
}

#[test]
fn a_new_host_has_everything(rt: HostRuntime) -> Result<(), Fail> {
    let host = Host::new(rt.alloc())?;
    assert_eq!(rt; host.smid_at(280), HostSmid::Free);
    assert_eq!(rt; host.phase(0x0048), Phase::Absent);
    assert!(rt; matches!(host.frame_at(63), HostFrame::Held));
    Ok(())
}
