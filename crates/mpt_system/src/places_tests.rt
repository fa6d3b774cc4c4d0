//! Worked places and weights.
use crate::{FramePlace, SmidPlace, System};
use std::alloc::Global;
use std::test::Fail;

// Whether a whole without disks, as it is made, has all that it has at home, and nothing to do.
fn is_at_home(alloc: Global) -> bool {
    let Ok(system) = System::new(alloc, &[], &[]) else {
        return false;
    };
    let Ok(places) = system.places() else {
        return false;
    };
    places.smids().iter().all(|place| *place == SmidPlace::Free)
        && places
            .frames()
            .iter()
            .all(|place| *place == FramePlace::Host)
        && system.weight() == 0
}

#[test]
fn new_whole_is_at_home(rt: HostRuntime) -> Result<(), Fail> {
    assert!(rt; is_at_home(rt.alloc()));
    Ok(())
}
