//! Worked items that come up.
use crate::{Host, TakeFault, Why};
use mpt_trace::Up;
use scsi_disk::Bytes;
use std::alloc::Global;
use std::test::Fail;

// The success reply of identifier 1.
fn first_success(alloc: Global) -> Up {
    Up::Reply {
        descriptor: 0x0000_0001_0001_0000,
        frame: None,
        page: Bytes::empty(alloc),
        sense: Bytes::empty(alloc),
    }
}

#[test]
fn what_a_new_host_finds_strange(rt: HostRuntime) -> Result<(), Fail> {
    let mut host = Host::with_queues(rt.alloc(), 2)?;
    let reply = host.take_up(first_success(rt.alloc()));
    assert!(rt;
        matches!(
            reply,
            Err(TakeFault::Strange {
                why: Why::NotOpen(1),
                ..
            })
        )
    );
    let mark = host.take_up_on(1, Up::Mark { generation: 0 });
    assert!(rt;
        matches!(
            mark,
            Err(TakeFault::Strange {
                why: Why::BadMark(0),
                ..
            })
        )
    );
    let value = host.take_up(Up::Value(0));
    assert!(rt;
        matches!(
            value,
            Err(TakeFault::Strange {
                why: Why::NoRead,
                ..
            })
        )
    );
    assert!(rt; host.take_up(Up::Calm).is_ok());
    Ok(())
}

#[test]
fn state_without_a_name_is_read_again(rt: HostRuntime) -> Result<(), Fail> {
    let mut host = Host::new(rt.alloc())?;
    assert!(rt; host.start().is_ok());
    assert!(rt; host.take_up(Up::Value(0)).is_ok());
    assert!(rt; host.take_up(Up::Value(0)).is_ok());
    Ok(())
}
