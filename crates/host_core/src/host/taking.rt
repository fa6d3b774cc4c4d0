//! What comes up: it is strange, or is heard.
ghost use Rattle.std.specs.Prelude.{◌≡◌, ◌<◌, ◌≤◌, ◌++◌, IfErr, None, OnErr, OnOk, length};
ghost use Rattle.mpt_rules.specs.Host.Takes.{hears_up, takes_up, why_strange};
ghost use Rattle.host_core.specs.Driver.{CanEndReset, CanSubmit, IsSame};
ghost use Rattle.host_core.specs.Taking.{item_of, why_of};

use super::Host;
use crate::faults::TakeFault;
use host_reading::HeardReply;
use mpt_trace::Up;

impl Host {
    /// Takes an item of the lane up: `take_up_on` queue 0.
    ///
    /// # Errors
    /// As `take_up_on`.
    pub fn take_up(&mut self, item: Up) -> Result<(), TakeFault>
        ensures strange { why_of result ≡ (takes_up self.old.host 0 item).answer }
        ensures host { OnOk result (self.new.host ≡ (takes_up self.old.host 0 item).part) }
        ensures told { OnOk result (self.new.told ≡ self.old.told ++ (takes_up self.old.host 0 item).told) }
        ensures stays { OnErr result (IsSame self.old self.new) }
        ensures returned { IfErr result (λ fault. item_of fault ≡ item) }
        ensures reserved { CanSubmit self.old → CanSubmit self.new }
    {
        // There is a queue 0, however many there are.
        let _queues = self.rings.count();
        self.take_up_on(0, item)
    }

    /// Takes an item of the lane of a reply queue, which is below the number of queues.
    ///
    /// # Errors
    /// `Strange` exactly where the item can't come, with the first cause that holds; else `NoRoom`
    /// where there is no memory left. Both hand the item back, and nothing has changed.
    pub fn take_up_on(&mut self, queue: u8, item: Up) -> Result<(), TakeFault>
        requires { queue < length self.old.host.indices }
        ensures strange { why_of result ≡ (takes_up self.old.host queue item).answer }
        ensures host { OnOk result (self.new.host ≡ (takes_up self.old.host queue item).part) }
        ensures told { OnOk result (self.new.told ≡ self.old.told ++ (takes_up self.old.host queue item).told) }
        ensures stays { OnErr result (IsSame self.old self.new) }
        ensures returned { IfErr result (λ fault. item_of fault ≡ item) }
        ensures reserved { CanSubmit self.old → CanSubmit self.new }
    {
        if let Err(why) = self.check_up(queue, &item) {
            return Err(TakeFault::Strange { item, why });
        }
        if self.make_reset_room().is_err() {
            return Err(TakeFault::NoRoom { item });
        }
        self.hear_up(queue, item);
        Ok(())
    }

    // An item that isn't strange is heard.
    fn hear_up(&mut self, queue: u8, item: Up)
        requires queue { queue < length self.old.host.indices }
        requires known { why_strange self.old.host queue item ≡ None }
        requires room { CanEndReset self.old }
        ensures host { self.new.host ≡ (hears_up self.old.host queue item).part }
        ensures told { self.new.told ≡ self.old.told ++ (hears_up self.old.host queue item).entries }
        ensures reserved { CanSubmit self.new }
    {
        match item {
            Up::Value(value) => self.hear_value(value),
            Up::Reply {
                descriptor,
                frame,
                page,
                sense,
            } => self.hear_reply(queue, HeardReply::new(descriptor, frame, page, sense)),
            Up::Mark { .. } => self.hear_mark(queue),
            Up::Calm => {}
        }
    }
}
