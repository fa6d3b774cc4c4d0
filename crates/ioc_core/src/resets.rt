//! A reset of the controller.
ghost use Rattle.std.specs.Prelude.{◌≡◌, ◌≤◌, ◌++◌};
ghost use Rattle.mpt_rules.specs.Ioc.Resets.{forgets, resets};

use crate::ioc::{FIRST_CONTEXT, Ioc};
use mpt_trace::Entry;

impl Ioc {
    /// The controller is reset: it tells that, forgets every request and every disk, and asks the fabric to link again.
    pub(crate) fn reset(&mut self)
        requires { 2 ≤ self.old.room }
        ensures part { self.new.part ≡ (resets self.old.part).part }
        ensures told { self.new.told ≡ self.old.told ++ (resets self.old.part).entries }
    {
        self.tell(Entry::UnbindAll);
        self.forget();
    }

    // Forgets every request and every disk, and asks the fabric to link again.
    fn forget(&mut self)
        requires { 1 ≤ self.old.room }
        ensures part { self.new.part ≡ forgets self.old.part }
        ensures told { self.new.told ≡ self.old.told }
    {
        self.door.restart();
        self.generation = self.generation.wrapping_add(1);
        self.queues.clear();
        self.lists.renew(self.generation);
        self.disks.clear();
        self.free.clear();
        self.unacked.clear();
        self.context = FIRST_CONTEXT;
        self.requests.clear();
        self.enabled = false;
        self.through = false;
    }
}
