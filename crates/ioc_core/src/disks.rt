//! The disks that the controller knows.
ghost use Rattle.std.specs.Prelude.{◌≡◌, ◌++◌, ◌∷◌, [], ◌||◌, None, Some, true, false, not, IfOk, IfSome, IsTrue, OnErr, OnOk, count_by, drop, filter, is_some, length, slice_get};
ghost use Rattle.std.specs.List.{list_any};
ghost use Rattle.mpt_rules.specs.Ioc.Bindings.{waits_at};
ghost use Rattle.mpt_rules.specs.Ioc.Places.{is_empty};
ghost use Rattle.mpt_rules.specs.Ioc.Tables.{is_unbound};
ghost use Rattle.mpt_rules.specs.declared.binding.Binding.TheVariants as binding;
ghost use Rattle.mpt_rules.specs.World.Weight.{is_gone_binding};
ghost use Rattle.ioc_tables.specs.Bindings.{after_bind, after_leaving, binding_at, handle_for, is_gone, is_table_handle, least_free, next_after, no_bindings, with_binding_at};
ghost use Rattle.ioc_core.specs.Disks.{is_placed, waits_placed};

use ioc_tables::Bindings;
use mpt_rules::{Binding, OutOfMemory, Waiting};
use mpt_trace::{Address, Handle};
use std::alloc::Global;
use std::collections::VecDeque;
use std::marker::Model;

/// What each handle stands for, and the plugged disks for which no handle was unbound, the longest waiting first. A disk
/// that waits has no handle, and waits once.
#[derive(Drop)]
pub struct Disks {
    bindings: Bindings,
    waiting: VecDeque<Waiting>,
}

impl Model for Disks {
    ghost use Rattle.ioc_core.specs.Disks.{AreDisks, DisksSeen};

    ghost Value = { DisksSeen };

    ghost view = { λ d. record { bindings = d.bindings; waiting = d.waiting.items } };

    ghost invariant = { λ d. AreDisks d.bindings d.waiting.items };
}

impl Disks {
    /// No disk, or OutOfMemory.
    pub fn new(alloc: Global) -> Result<Disks, OutOfMemory>
        ensures { IfOk result (λ disks. disks ≡ record { bindings = no_bindings; waiting = [] }) }
    {
        let bindings = Bindings::new(alloc)?;
        Ok(Disks {
            bindings,
            waiting: VecDeque::new(alloc),
        })
    }

    /// What a handle stands for. One that isn't in the table is unbound.
    pub fn get(&self, handle: Handle) -> Binding
        ensures value { result ≡ binding_at self.now.bindings handle }
        ensures in_table { is_unbound result ≡ false → is_table_handle handle ≡ true }
        ensures size { length self.now.bindings ≡ 64 }
        ensures placed { is_placed result ≡ true }
    {
        self.bindings.get(handle)
    }

    /// The handle of the plugged disk of this address. None exactly where no handle stands for it.
    pub fn handle_of(&self, address: Address) -> Option<Handle>
        ensures { result ≡ handle_for address self.now.bindings }
    {
        self.bindings.handle_of(address)
    }

    /// The least unbound handle. None exactly where there is none.
    pub fn least_unbound(&self) -> Option<Handle>
        ensures { result ≡ least_free self.now.bindings }
    {
        self.bindings.least_unbound()
    }

    /// The least handle of a plugged disk that is greater than this one; 0xffff begins the walk.
    pub fn next_present(&self, handle: Handle) -> Option<Handle>
        ensures { result ≡ next_after handle self.now.bindings }
    {
        self.bindings.next_present(handle)
    }

    /// Whether the disk of the address has a handle, or waits for one.
    pub fn is_known(&self, address: Address) -> bool
        ensures { result ≡ (is_some (handle_for address self.now.bindings) || list_any (waits_at address) self.now.waiting) }
    {
        self.handle_of(address).is_some() || self.waits(address)
    }

    // Whether a disk of the address waits for a handle.
    fn waits(&self, address: Address) -> bool
        ensures { result ≡ list_any (waits_at address) self.now.waiting }
    {
        self.waiting.iter().any(|disk| disk.address == address)
    }

    /// The disk that waits longest. None exactly where none waits.
    pub fn first_waiting(&self) -> Option<Waiting>
        ensures first { result ≡ slice_get self.now.waiting 0 }
        ensures placed { IfSome result (λ disk. waits_placed disk ≡ true) }
    {
        self.waiting.front().copied()
    }

    /// A disk waits for a handle, after the others. It has no handle, and doesn't wait yet. Where memory is wanting nothing
    /// changes.
    pub fn wait(&mut self, disk: Waiting) -> Result<(), OutOfMemory>
        requires unbound { handle_for disk.address self.old.bindings ≡ None }
        requires new { list_any (waits_at disk.address) self.old.waiting ≡ false }
        requires placed { waits_placed disk ≡ true }
        ensures ok { OnOk result (self.new ≡ record self.old { waiting = self.old.waiting ++ disk ∷ [] }) }
        ensures stays { OnErr result (self.new ≡ self.old) }
    {
        self.waiting.push_back(disk)?;
        Ok(())
    }

    /// A disk is given the least unbound handle, if there is one. It has no handle, and doesn't wait. Where memory is wanting
    /// nothing changes.
    pub fn bind(&mut self, disk: Waiting) -> Result<(), OutOfMemory>
        requires unbound { handle_for disk.address self.old.bindings ≡ None }
        requires new { list_any (waits_at disk.address) self.old.waiting ≡ false }
        requires placed { waits_placed disk ≡ true }
        ensures ok { OnOk result (self.new ≡ record self.old {
          bindings = after_bind disk (least_free self.old.bindings) self.old.bindings;
        }) }
        ensures stays { OnErr result (self.new ≡ self.old) }
    {
        self.bindings.bind(disk)?;
        Ok(())
    }

    /// The handle's disk is gone. Where the handle stands for no plugged disk nothing changes.
    pub fn lose(&mut self, handle: Handle)
        ensures { self.new ≡ record self.old {
          bindings = after_leaving handle (binding_at self.old.bindings handle) self.old.bindings;
        } }
    {
        self.bindings.lose(handle);
    }

    /// The disk of an address doesn't wait any more.
    pub fn stop_waiting(&mut self, address: Address)
        ensures { self.new ≡ record self.old {
          waiting = filter (λ disk. not (waits_at address disk)) self.old.waiting;
        } }
    {
        self.waiting.retain(|disk| disk.address != address);
    }

    /// The handle, whose disk is gone, is unbound.
    pub fn unbind(&mut self, handle: Handle)
        requires { IsTrue (is_gone (binding_at self.old.bindings handle)) }
        ensures { self.new ≡ record self.old { bindings = with_binding_at handle binding.Unbound self.old.bindings } }
    {
        self.bindings.unbind(handle);
    }

    /// The handle, whose disk is gone, is unbound, and the disk that waits longest, which is this one, is given the least
    /// unbound handle. Where memory is wanting nothing changes.
    pub fn unbind_for(&mut self, handle: Handle, first: Waiting) -> Result<Handle, OutOfMemory>
        requires gone { IsTrue (is_gone (binding_at self.old.bindings handle)) }
        requires first { slice_get self.old.waiting 0 ≡ Some first }
        ensures least { IfOk result (λ given.
            least_free (with_binding_at handle binding.Unbound self.old.bindings) ≡ Some given) }
        ensures ok { IfOk result (λ given. self.new ≡ record {
          bindings = after_bind first (Some given) (with_binding_at handle binding.Unbound self.old.bindings);
          waiting = drop 1 self.old.waiting;
        }) }
        ensures stays { OnErr result (self.new ≡ self.old) }
    {
        let given = self.bindings.unbind_for(handle, first)?;
        self.waiting.pop_front();
        Ok(given)
    }

    /// How many handles stand for a disk that was unplugged.
    pub fn gone_count(&self) -> usize
        ensures { result ≡ count_by is_gone_binding self.now.bindings }
    {
        self.bindings.gone_count()
    }

    /// How many disks wait for a handle.
    pub fn waiting_count(&self) -> usize
        ensures { result ≡ length self.now.waiting }
    {
        self.waiting.len()
    }

    /// Whether no disk waits for a handle.
    pub fn is_none_waiting(&self) -> bool
        ensures { result ≡ is_empty self.now.waiting }
    {
        self.waiting.is_empty()
    }

    /// Forgets every disk.
    pub fn clear(&mut self)
        ensures { self.new ≡ record { bindings = no_bindings; waiting = [] } }
    {
        self.bindings.clear();
        self.waiting.clear();
    }
}
