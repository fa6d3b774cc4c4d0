//! Puts: an outbox's next item goes to the end of its lane.
ghost use Rattle.mpt_rules.specs.Ioc.Takes.{front_out, front_up_on};
ghost use Rattle.mpt_rules.specs.World.Moves.{fabric_puts, host_puts, ioc_puts, ioc_puts_out};
ghost use Rattle.mpt_system.specs.Parties.{IsWritten, whole_of, world_of};
ghost use Rattle.mpt_system.specs.Steps.{HasTried};

use crate::parties::Parties;
use crate::up_lanes::up_lane;
use mpt_rules::OutOfMemory;
use mpt_trace::{Entry, Item, LaneName};

// Each makes a copy for the lane, and the item itself goes into the trace. False exactly where there is
// nothing to put. Where memory is wanting nothing changes.
impl Parties {
    /// The host's next item goes down.
    pub(crate) fn put_down(&mut self) -> Result<bool, OutOfMemory>
        requires { IsWritten self.old }
        ensures { HasTried (whole_of self.old) (host_puts (world_of self.old) self.old.host.host.out) result (whole_of self.new) }
    {
        let Some(front) = self.host.front_down() else {
            return Ok(false);
        };
        let item = front.copy(self.alloc)?;
        self.trace.reserve(1)?;
        self.down.push_back(item)?;
        let item = Item::Down(self.host.sent_down());
        let lane = LaneName::Down;
        self.trace.push(Entry::Put { lane, item }).unwrap();
        Ok(true)
    }

    /// The controller's next item for the fabric goes out.
    pub(crate) fn put_out(&mut self) -> Result<bool, OutOfMemory>
        requires { IsWritten self.old }
        ensures { HasTried (whole_of self.old) (ioc_puts_out (world_of self.old) (front_out self.old.ioc.part)) result (whole_of self.new) }
    {
        let Some(front) = self.ioc.front_out() else {
            return Ok(false);
        };
        let item = front.copy(self.alloc)?;
        self.trace.reserve(1)?;
        self.out.push_back(item)?;
        let item = Item::Out(self.ioc.sent_out());
        let lane = LaneName::Out;
        self.trace.push(Entry::Put { lane, item }).unwrap();
        Ok(true)
    }

    /// The controller's next item of a reply queue goes up.
    pub(crate) fn put_up(&mut self, queue: u8) -> Result<bool, OutOfMemory>
        requires { IsWritten self.old }
        ensures { HasTried (whole_of self.old) (ioc_puts (world_of self.old) queue (front_up_on self.old.ioc.part queue)) result (whole_of self.new) }
    {
        let Some(item) = self.ioc.front_up_on(queue)? else {
            return Ok(false);
        };
        let put = item.copy(self.alloc)?;
        self.trace.reserve(1)?;
        self.up.push(queue, put)?;
        self.ioc.sent_up_on(queue);
        let item = Item::Up(item);
        let lane = up_lane(queue);
        self.trace.push(Entry::Put { lane, item }).unwrap();
        Ok(true)
    }

    /// The fabric's next item goes back.
    pub(crate) fn put_back(&mut self) -> Result<bool, OutOfMemory>
        requires { IsWritten self.old }
        ensures { HasTried (whole_of self.old) (fabric_puts (world_of self.old) self.old.fabric.out) result (whole_of self.new) }
    {
        let Some(front) = self.fabric.front_back() else {
            return Ok(false);
        };
        let item = front.copy(self.alloc)?;
        self.trace.reserve(1)?;
        self.back.push_back(item)?;
        let item = Item::Back(self.fabric.sent_back());
        let lane = LaneName::Back;
        self.trace.push(Entry::Put { lane, item }).unwrap();
        Ok(true)
    }
}
