//! Takes: a lane's next item goes to the party at its end.
ghost use Rattle.std.specs.Prelude.{◌≡◌, ◌++◌, ◌<◌, OnErr, OnOk, length};
ghost use Rattle.host_core.specs.Driver.{IsSame};
ghost use Rattle.mpt_rules.specs.Host.Takes.{takes_up};
ghost use Rattle.mpt_rules.specs.World.Moves.{fabric_takes, host_takes, ioc_takes, ioc_takes_back, told_of};
ghost use Rattle.mpt_rules.specs.World.State.{up_on};
ghost use Rattle.mpt_system.specs.Parties.{HasLanes, IsWritten, whole_of, world_of};
ghost use Rattle.mpt_system.specs.Steps.{HasTried};

use crate::parties::Parties;
use crate::up_lanes::up_lane;
use host_core::{Host, TakeFault};
use mpt_rules::OutOfMemory;
use mpt_trace::{Entry, Item, LaneName, Up};

// Each gives the party a copy, and the item itself goes into the trace. False exactly where the lane is
// empty. Where memory is wanting, nothing changes, or the item was taken and what is told of it isn't all
// in the trace yet.
impl Parties {
    /// The host takes the next item of a reply queue. One that it finds strange is dropped.
    pub(crate) fn take_up(&mut self, queue: u8) -> Result<bool, OutOfMemory>
        requires written { IsWritten self.old }
        requires lanes { HasLanes (world_of self.old) }
        ensures { HasTried (whole_of self.old) (host_takes (world_of self.old) queue (up_on (world_of self.old) queue)) result (whole_of self.new) }
    {
        let Some(front) = self.up.front(queue) else {
            return Ok(false);
        };
        let item = front.copy(self.alloc)?;
        self.trace.reserve(1)?;
        hear(&mut self.host, queue, item)?;
        let item = Item::Up(self.up.pop(queue).unwrap());
        let lane = up_lane(queue);
        self.trace.push(Entry::Take { lane, item }).unwrap();
        self.write_told()?;
        Ok(true)
    }

    /// The controller takes the next item of the host.
    pub(crate) fn take_down(&mut self) -> Result<bool, OutOfMemory>
        requires { IsWritten self.old }
        ensures { HasTried (whole_of self.old) (ioc_takes (world_of self.old) self.old.down.items) result (whole_of self.new) }
    {
        let Some(front) = self.down.front() else {
            return Ok(false);
        };
        let item = front.copy(self.alloc)?;
        self.trace.reserve(1)?;
        if self.ioc.take_down(item).is_err() {
            return Err(OutOfMemory);
        }
        let item = Item::Down(self.down.pop_front().unwrap());
        let lane = LaneName::Down;
        self.trace.push(Entry::Take { lane, item }).unwrap();
        self.write_told()?;
        Ok(true)
    }

    /// The controller takes the next item of the fabric.
    pub(crate) fn take_back(&mut self) -> Result<bool, OutOfMemory>
        requires { IsWritten self.old }
        ensures { HasTried (whole_of self.old) (ioc_takes_back (world_of self.old) self.old.back.items) result (whole_of self.new) }
    {
        let Some(front) = self.back.front() else {
            return Ok(false);
        };
        let item = front.copy(self.alloc)?;
        self.trace.reserve(1)?;
        if self.ioc.take_back(item).is_err() {
            return Err(OutOfMemory);
        }
        let item = Item::Back(self.back.pop_front().unwrap());
        let lane = LaneName::Back;
        self.trace.push(Entry::Take { lane, item }).unwrap();
        self.write_told()?;
        Ok(true)
    }

    /// The fabric takes the next item of the controller.
    pub(crate) fn take_out(&mut self) -> Result<bool, OutOfMemory>
        requires { IsWritten self.old }
        ensures { HasTried (whole_of self.old) (fabric_takes (world_of self.old) self.old.out.items) result (whole_of self.new) }
    {
        let Some(front) = self.out.front() else {
            return Ok(false);
        };
        let item = front.copy(self.alloc)?;
        self.trace.reserve(1)?;
        if self.fabric.take(item).is_err() {
            return Err(OutOfMemory);
        }
        let item = Item::Out(self.out.pop_front().unwrap());
        let lane = LaneName::Out;
        self.trace.push(Entry::Take { lane, item }).unwrap();
        Ok(true)
    }
}

// The host hears an item of a reply queue; one that it finds strange is dropped, and nothing is told of
// it. Where memory is wanting nothing changes.
fn hear(host: &mut Host, queue: u8, item: Up) -> Result<(), OutOfMemory>
    requires { queue < length host.old.host.indices }
    ensures host { OnOk result (host.new.host ≡ (takes_up host.old.host queue item).part) }
    ensures told { let called = takes_up host.old.host queue item in OnOk result (host.new.told ≡ host.old.told ++ told_of called.answer called.told) }
    ensures stays { OnErr result (IsSame host.old host.new) }
{
    match host.take_up_on(queue, item) {
        Ok(()) | Err(TakeFault::Strange { .. }) => Ok(()),
        Err(TakeFault::NoRoom { .. }) => Err(OutOfMemory),
    }
}
