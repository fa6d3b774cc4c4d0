//! What the fabric is told to do.
ghost use Rattle.std.specs.Prelude.{◌≡◌};
ghost use Rattle.mpt_rules.specs.Fabric.Tasks.{oldest, runs};
ghost use Rattle.mpt_rules.specs.Fabric.Calls.{announces, fabric_plugs, fabric_unplugs};
ghost use Rattle.mpt_c_calls.specs.Plugging.{Announces, IsOldest, Plugs, Runs};

use mpt_c_messages::CallCode;
use sas_fabric::{AnnounceFault, Fabric, PlugFault, RunFault};

/// Plugs the disk of an address at a phy of an expander.
pub fn plug(fabric: &mut Fabric, address: u64, expander: u8, phy: u8) -> CallCode
    ensures { Plugs fabric.old fabric.new (fabric_plugs fabric.old address expander phy) result }
{
    match fabric.plug(address, expander, phy) {
        Ok(()) => CallCode::Ok,
        Err(PlugFault::OutOfMemory) => CallCode::NoMemory,
        Err(
            PlugFault::NoSuchDisk
            | PlugFault::NoSuchPhy
            | PlugFault::Occupied
            | PlugFault::AlreadyPlugged
            | PlugFault::PlugsSpent
            | PlugFault::NotPlugged,
        ) => CallCode::Refused,
    }
}

/// Unplugs the disk of an address.
pub fn unplug(fabric: &mut Fabric, address: u64) -> CallCode
    ensures { Plugs fabric.old fabric.new (fabric_unplugs fabric.old address) result }
{
    match fabric.unplug(address) {
        Ok(()) => CallCode::Ok,
        Err(PlugFault::OutOfMemory) => CallCode::NoMemory,
        Err(
            PlugFault::NoSuchDisk
            | PlugFault::NoSuchPhy
            | PlugFault::Occupied
            | PlugFault::AlreadyPlugged
            | PlugFault::PlugsSpent
            | PlugFault::NotPlugged,
        ) => CallCode::Refused,
    }
}

/// The tag of the task that was queued first. Nothing where no task is queued.
pub fn oldest_tag(fabric: &Fabric, tag: &mut u16) -> CallCode
    ensures { IsOldest (oldest fabric.now) tag.old tag.new result }
{
    match fabric.oldest() {
        Some(found) => {
            *tag = found;
            CallCode::Ok
        }
        None => CallCode::Nothing,
    }
}

/// Carries out the task with a tag at its disk, whose address is answered. Nothing where no such task is queued.
pub fn run(fabric: &mut Fabric, tag: u16, address: &mut u64) -> CallCode
    ensures { Runs fabric.old fabric.new (runs fabric.old tag) address.old address.new result }
{
    match fabric.run(tag) {
        Ok(found) => {
            *address = found;
            CallCode::Ok
        }
        Err(RunFault::NoTask) => CallCode::Nothing,
        Err(RunFault::OutOfMemory) => CallCode::NoMemory,
    }
}

/// Tells the first notice of a disk that came or went. Nothing where there is none.
pub fn announce(fabric: &mut Fabric) -> CallCode
    ensures { Announces fabric.old fabric.new (announces fabric.old) result }
{
    match fabric.announce() {
        Ok(()) => CallCode::Ok,
        Err(AnnounceFault::NoNotice) => CallCode::Nothing,
        Err(AnnounceFault::OutOfMemory) => CallCode::NoMemory,
    }
}
