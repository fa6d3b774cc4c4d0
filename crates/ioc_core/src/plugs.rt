//! Disks that come and go: the handles that they are given, and the events that tell of them.
ghost use Rattle.std.specs.Prelude.{◌≡◌, ◌≤◌, ◌<◌, ◌+◌, ◌++◌, ◌∷◌, [], Some, None, true, false, cond, not, ◌&&◌, nat_lt, length, IfOk, IsTrue, OnErr, OnOk, drop, slice_get};
ghost use Rattle.std.specs.FinSet as set;
ghost use Rattle.std.specs.List.{list_any};
ghost use Rattle.mpt_trace.specs.declared.entry.Entry.TheVariants as entry;
ghost use Rattle.mpt_rules.specs.Ioc.Bindings.{binds, ioc_loses, ioc_plugs, ioc_unplugs, is_known, waits_at};
ghost use Rattle.mpt_rules.specs.Ioc.Tables.{binding_of};
ghost use Rattle.mpt_rules.specs.declared.binding.Binding.TheVariants as binding;
ghost use Rattle.ioc_tables.specs.Bindings.{after_bind, handle_for, is_gone, least_free, with_binding_at};
ghost use Rattle.ioc_core.specs.Disks.{waits_placed};
ghost use Rattle.ioc_core.specs.Removing.{noted, with_event};

use crate::ioc::Ioc;
use mpt_messages::IocReply;
use mpt_rules::{Binding, OutOfMemory, Waiting};
use mpt_trace::{Address, Entry, Handle};

impl Ioc {
    // ---- events

    // Where topology events are let through the next event's context isn't acknowledged from now on. Whether it is new
    // among those. Where memory is wanting nothing changes.
    fn note_event(&mut self) -> Result<bool, OutOfMemory>
        ensures new { IfOk result (λ new. new ≡ (self.old.part.through && not (set.contains self.old.part.unacked self.old.part.context))) }
        ensures part { OnOk result (self.new.part ≡ noted self.old.part) }
        ensures stays { OnErr result (self.new.part ≡ self.old.part) }
        ensures told { self.new.told ≡ self.old.told }
        ensures room { self.new.room ≡ self.old.room }
    {
        if !self.through {
            return Ok(false);
        }
        let new = self.unacked.add(self.context)?;
        Ok(new)
    }

    // The next event's context is forgotten, where it was new.
    fn forget_event(&mut self, new: bool)
        ensures part { self.new.part ≡ record self.old.part {
          unacked = cond new (set.remove self.old.part.unacked self.old.part.context) self.old.part.unacked;
        } }
        ensures told { self.new.told ≡ self.old.told }
        ensures room { self.new.room ≡ self.old.room }
    {
        if new {
            self.unacked.remove(self.context);
        }
    }

    // A topology event whose context was noted, where such events are let through.
    fn put_event(&mut self, handle: Handle, expander: u8, phy: u8, added: bool)
        requires room { 1 ≤ self.old.room }
        requires placed { expander < 16 }
        ensures part { self.new.part ≡ with_event self.old.part handle expander phy added }
        ensures told { self.new.told ≡ self.old.told }
    {
        if !self.through {
            return;
        }
        let context = self.context;
        self.context = context.wrapping_add(1);
        let phys = self.phys.get(usize::from(expander)).copied().unwrap_or(0);
        let reply = IocReply::Topology {
            context,
            handle,
            expander,
            phys,
            phy,
            added,
        };
        self.answer(0, reply);
    }

    // ---- disks that come

    /// A disk is plugged. One that is known, or at an expander that isn't there, is passed over. Where memory is wanting
    /// nothing changes.
    pub(crate) fn plug(&mut self, disk: Waiting) -> Result<(), OutOfMemory>
        requires { 2 ≤ self.old.room }
        ensures part { OnOk result (self.new.part ≡ (ioc_plugs self.old.part disk).part) }
        ensures told { OnOk result (self.new.told ≡ self.old.told ++ (ioc_plugs self.old.part disk).entries) }
        ensures stays { OnErr result (self.new.part ≡ self.old.part) }
        ensures silent { OnErr result (self.new.told ≡ self.old.told) }
    {
        if self.disks.is_known(disk.address) || !self.has_expander(disk.expander) {
            return Ok(());
        }
        self.bind(disk)
    }

    // Whether there is such an expander.
    fn has_expander(&self, expander: u8) -> bool
        ensures there { result ≡ nat_lt expander (length self.now.part.phys) }
        ensures placed { result ≡ true → expander < 16 }
    {
        usize::from(expander) < self.phys.len()
    }

    // A plugged disk that isn't known is given the least unbound handle, or waits. Where memory is wanting nothing changes.
    fn bind(&mut self, disk: Waiting) -> Result<(), OutOfMemory>
        requires room { 2 ≤ self.old.room }
        requires unbound { handle_for disk.address self.old.part.bindings ≡ None }
        requires new { list_any (waits_at disk.address) self.old.part.waiting ≡ false }
        requires placed { waits_placed disk ≡ true }
        ensures part { OnOk result (self.new.part ≡ (binds self.old.part disk).part) }
        ensures told { OnOk result (self.new.told ≡ self.old.told ++ (binds self.old.part disk).entries) }
        ensures stays { OnErr result (self.new.part ≡ self.old.part) }
        ensures silent { OnErr result (self.new.told ≡ self.old.told) }
    {
        let Some(handle) = self.disks.least_unbound() else {
            return self.disks.wait(disk);
        };
        self.bind_noted(disk)?;
        self.tell_bind(handle, disk);
        Ok(())
    }

    // The disk is bound in the table, and its event's context is noted. Where memory is wanting nothing changes.
    fn bind_noted(&mut self, disk: Waiting) -> Result<(), OutOfMemory>
        requires unbound { handle_for disk.address self.old.part.bindings ≡ None }
        requires new { list_any (waits_at disk.address) self.old.part.waiting ≡ false }
        requires placed { waits_placed disk ≡ true }
        ensures part { OnOk result (self.new.part ≡ record (noted self.old.part) {
          bindings = after_bind disk (least_free self.old.part.bindings) self.old.part.bindings;
        }) }
        ensures stays { OnErr result (self.new.part ≡ self.old.part) }
        ensures told { self.new.told ≡ self.old.told }
        ensures room { self.new.room ≡ self.old.room }
    {
        let new = self.note_event()?;
        if let Err(error) = self.bind_in_table(disk) {
            self.forget_event(new);
            return Err(error);
        }
        Ok(())
    }

    // The disk is given the least unbound handle. Where memory is wanting nothing changes.
    fn bind_in_table(&mut self, disk: Waiting) -> Result<(), OutOfMemory>
        requires unbound { handle_for disk.address self.old.part.bindings ≡ None }
        requires new { list_any (waits_at disk.address) self.old.part.waiting ≡ false }
        requires placed { waits_placed disk ≡ true }
        ensures part { OnOk result (self.new.part ≡ record self.old.part {
          bindings = after_bind disk (least_free self.old.part.bindings) self.old.part.bindings;
        }) }
        ensures stays { OnErr result (self.new.part ≡ self.old.part) }
        ensures told { self.new.told ≡ self.old.told }
        ensures room { self.new.room ≡ self.old.room }
    {
        self.disks.bind(disk)
    }

    /// A disk is told to be bound, by its entry and by its event, whose context was noted.
    pub(crate) fn tell_bind(&mut self, handle: Handle, disk: Waiting)
        requires room { 2 ≤ self.old.room }
        requires placed { waits_placed disk ≡ true }
        ensures part { self.new.part ≡ with_event self.old.part handle disk.expander disk.phy true }
        ensures told { self.new.told ≡ self.old.told ++ entry.Bind handle disk.address disk.plug ∷ [] }
    {
        self.tell(Entry::Bind {
            handle,
            address: disk.address,
            plug: disk.plug,
        });
        self.put_event(handle, disk.expander, disk.phy, true);
    }

    /// The handle, whose disk is gone, is unbound in the table, the disk that waits longest is given the least unbound
    /// one, and its event's context is noted. Where memory is wanting nothing changes.
    pub(crate) fn unbind_for(
        &mut self,
        handle: Handle,
        first: Waiting,
    ) -> Result<Handle, OutOfMemory>
        requires gone { IsTrue (is_gone (binding_of self.old.part handle)) }
        requires first { slice_get self.old.part.waiting 0 ≡ Some first }
        ensures least { IfOk result (λ given.
            least_free (with_binding_at handle binding.Unbound self.old.part.bindings) ≡ Some given) }
        ensures part { IfOk result (λ given. self.new.part ≡ record (noted self.old.part) {
          bindings = after_bind first (Some given) (with_binding_at handle binding.Unbound self.old.part.bindings);
          waiting = drop 1 self.old.part.waiting;
        }) }
        ensures stays { OnErr result (self.new.part ≡ self.old.part) }
        ensures told { self.new.told ≡ self.old.told }
        ensures room { self.new.room ≡ self.old.room }
    {
        let new = self.note_event()?;
        match self.unbind_in_table(handle, first) {
            Ok(given) => Ok(given),
            Err(error) => {
                self.forget_event(new);
                Err(error)
            }
        }
    }

    // The handle is unbound, and the disk that waits longest is given the least unbound one. Where memory is wanting
    // nothing changes.
    fn unbind_in_table(&mut self, handle: Handle, first: Waiting) -> Result<Handle, OutOfMemory>
        requires gone { IsTrue (is_gone (binding_of self.old.part handle)) }
        requires first { slice_get self.old.part.waiting 0 ≡ Some first }
        ensures least { IfOk result (λ given.
            least_free (with_binding_at handle binding.Unbound self.old.part.bindings) ≡ Some given) }
        ensures part { IfOk result (λ given. self.new.part ≡ record self.old.part {
          bindings = after_bind first (Some given) (with_binding_at handle binding.Unbound self.old.part.bindings);
          waiting = drop 1 self.old.part.waiting;
        }) }
        ensures stays { OnErr result (self.new.part ≡ self.old.part) }
        ensures told { self.new.told ≡ self.old.told }
        ensures room { self.new.room ≡ self.old.room }
    {
        self.disks.unbind_for(handle, first)
    }

    // ---- disks that go

    /// The disk of an address is unplugged: its handle is gone, or without a handle it doesn't wait any more. Where memory
    /// is wanting nothing changes.
    pub(crate) fn unplug(&mut self, address: Address) -> Result<(), OutOfMemory>
        requires { 1 ≤ self.old.room }
        ensures part { OnOk result (self.new.part ≡ ioc_unplugs self.old.part address) }
        ensures stays { OnErr result (self.new.part ≡ self.old.part) }
        ensures told { self.new.told ≡ self.old.told }
    {
        match self.disks.handle_of(address) {
            None => {
                self.disks.stop_waiting(address);
                Ok(())
            }
            Some(handle) => self.lose(handle),
        }
    }

    // The handle's disk is gone; the event has the place where it was plugged. Where memory is wanting nothing changes.
    fn lose(&mut self, handle: Handle) -> Result<(), OutOfMemory>
        requires { 1 ≤ self.old.room }
        ensures part { OnOk result (self.new.part ≡ ioc_loses self.old.part handle (binding_of self.old.part handle)) }
        ensures stays { OnErr result (self.new.part ≡ self.old.part) }
        ensures told { self.new.told ≡ self.old.told }
    {
        let Binding::Present { expander, phy, .. } = self.binding(handle) else {
            return Ok(());
        };
        self.note_event()?;
        self.disks.lose(handle);
        self.put_event(handle, expander, phy, false);
        Ok(())
    }
}
