//! Where identifiers are, and whether anything is left to do.
ghost use Rattle.std.specs.Prelude.{◌≡◌, ◌≤◌, ◌^◌, length, option_map};
ghost use Rattle.mpt_rules.specs.Ioc.Places.{ioc_quiet, smid_at};
ghost use Rattle.ioc_tables.specs.Queues.{AreApart};
ghost use Rattle.ioc_core.specs.Places.{place_of};
ghost use Rattle.ioc_core.specs.Things.{ioc_things};

use crate::ioc::Ioc;
use crate::place::IocPlace;
use mpt_trace::Smid;

impl Ioc {
    /// The first place where the identifier is. None exactly where it is in none.
    ///
    /// No identifier has two posts in the queues, so the high one never has more than 8 and the normal one never more
    /// than 272.
    pub fn smid_at(&self, smid: Smid) -> Option<IocPlace>
        ensures place { option_map place_of result ≡ smid_at self.now.part smid }
        ensures short_high { length self.now.part.high ≤ 8 }
        ensures short_normal { length self.now.part.normal ≤ 272 }
        ensures apart { AreApart (record { high = self.now.part.high; normal = self.now.part.normal }) }
    {
        if self.queues.is_queued(smid) {
            return Some(if self.queues.is_in_high(smid) {
                IocPlace::HighQueue
            } else {
                IocPlace::NormalQueue
            });
        }
        if self.is_at_fabric(smid) {
            Some(IocPlace::Fabric)
        } else if self.lists.has_reply(smid) {
            Some(IocPlace::UpOut)
        } else {
            None
        }
    }

    /// Whether the queues and the outboxes are empty, no disk waits for a handle, and nothing is at the fabric or waits
    /// for what is there.
    pub fn quiet(&self) -> bool
        ensures { result ≡ ioc_quiet self.now.part }
    {
        self.queues.is_empty()
            && self.lists.is_up_empty()
            && self.lists.is_out_empty()
            && self.disks.is_none_waiting()
            && self.requests.is_empty()
            && self.lists.is_held_empty()
    }

    /// How many things the controller has to do: items to be put, values not counted; posts that aren't processed; handles
    /// that are to be removed; disks that wait for a handle; and requests that are at the fabric or wait for what is there.
    pub fn things_to_do(&self) -> u128
        ensures value { result ≡ ioc_things self.now.part }
        ensures small { result ≤ 2 ^ 70 }
    {
        self.lists.said_count()
            + self.lists.out_count() as u128
            + self.queues.count() as u128
            + self.disks.gone_count() as u128
            + self.disks.waiting_count() as u128
            + self.requests.count() as u128
            + self.lists.held_count() as u128
    }
}
