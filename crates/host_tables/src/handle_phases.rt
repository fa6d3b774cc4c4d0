//! How far the host is with each device handle.
ghost use Rattle.std.specs.Prelude.{◌≡◌, ◌≤◌, ◌-◌, IfSome, IsTrue, MatchOption, None, count_by};
ghost use Rattle.mpt_rules.specs.Host.Removal.{is_absent, is_reset_under};
ghost use Rattle.mpt_rules.specs.World.Weight.{is_under_way};
ghost use Rattle.removal.specs.Handles.{IsHandle, all_absent, phase_at, ready_handle, with_phase};
ghost use Rattle.removal.specs.Phases.{after_added, after_gone, after_grant, after_page, after_removed, after_task_done, lost_address};

use mpt_trace::{Address, Handle, Smid};
use removal::{FIRST_HANDLE, Handles, LAST_HANDLE, Phase};
use std::marker::Model;

/// The phase of each handle from 0x0009 to 0x0048. Of any other handle the calls say what the rules
/// say of it: a lesser one goes for the first, and a greater one is absent. No call takes memory.
#[derive(Drop)]
pub struct HandlePhases {
    handles: Handles,
}

impl Model for HandlePhases {
    ghost use Rattle.std.specs.Prelude.{◌≡◌, List, length};
    ghost use Rattle.removal.specs.declared.phase.Phase.{Phase};

    ghost Value = { List Phase };

    ghost view = { λ p. p.handles };

    ghost invariant = { λ p. length p.handles ≡ 64 };
}

impl HandlePhases {
    /// All are absent.
    pub fn new() -> HandlePhases
        ensures { result ≡ all_absent }
    {
        HandlePhases {
            handles: Handles::new(),
        }
    }

    /// An equal table: what a call would make of it is tried there.
    pub fn copy(&self) -> HandlePhases
        ensures { result ≡ self.now }
    {
        HandlePhases {
            handles: self.handles.copy(),
        }
    }

    /// The phase of a handle.
    pub fn at(&self, handle: Handle) -> Phase
        ensures { result ≡ phase_at self.now handle }
    {
        match nearest(handle) {
            Some(known) => self.handles.phase(known),
            None => Phase::Absent,
        }
    }

    /// Whether a handle is absent.
    pub fn is_absent(&self, handle: Handle) -> bool
        ensures { result ≡ is_absent (phase_at self.now handle) }
    {
        matches!(self.at(handle), Phase::Absent)
    }

    /// Whether the target reset of a handle's removal was asked under this identifier.
    pub fn is_reset_under(&self, handle: Handle, smid: Smid) -> bool
        ensures { result ≡ is_reset_under smid (phase_at self.now handle) }
    {
        match self.at(handle) {
            Phase::Resetting(reset) => reset == smid,
            _ => false,
        }
    }

    /// The device with this handle was added.
    pub fn on_added(&mut self, handle: Handle)
        ensures { self.new ≡ with_phase self.old handle (after_added (phase_at self.old handle)) }
    {
        if let Some(known) = nearest(handle) {
            let _ = self.handles.on_added(known);
        }
    }

    /// The device with this handle isn't responding any more: the address that was ready.
    pub fn on_gone(&mut self, handle: Handle) -> Option<Address>
        ensures address { result ≡ lost_address (phase_at self.old handle) }
        ensures phases { self.new ≡ with_phase self.old handle (after_gone (phase_at self.old handle)) }
    {
        match nearest(handle) {
            Some(known) => self.handles.on_gone(known),
            None => None,
        }
    }

    /// The read of the handle's page was answered, with an address or without.
    pub fn on_page(&mut self, handle: Handle, smid: Smid, page: Option<Address>)
        ensures { self.new ≡ with_phase self.old handle (after_page (phase_at self.old handle) smid page) }
    {
        if let Some(known) = nearest(handle) {
            self.handles.on_page(known, smid, page);
        }
    }

    /// The target reset of the handle was answered.
    pub fn on_task_done(&mut self, handle: Handle, smid: Smid)
        ensures { self.new ≡ with_phase self.old handle (after_task_done (phase_at self.old handle) smid) }
    {
        if let Some(known) = nearest(handle) {
            self.handles.on_task_done(known, smid);
        }
    }

    /// The remove device of the handle was answered.
    pub fn on_removed(&mut self, handle: Handle, smid: Smid)
        ensures { self.new ≡ with_phase self.old handle (after_removed (phase_at self.old handle) smid) }
    {
        if let Some(known) = nearest(handle) {
            self.handles.on_removed(known, smid);
        }
    }

    /// The post that the handle waits with got this identifier. A handle that waits with none stays.
    pub fn grant(&mut self, handle: Handle, smid: Smid)
        ensures { self.new ≡ with_phase self.old handle (after_grant (phase_at self.old handle) smid) }
    {
        if let Some(known) = nearest(handle) {
            grant_if_waiting(&mut self.handles, known, smid);
        }
    }

    /// The least handle that is ready with this address.
    pub fn of(&self, address: Address) -> Option<Handle>
        ensures { result ≡ ready_handle self.now address }
    {
        self.handles.of(address)
    }

    /// How many handles are neither absent nor ready.
    pub fn under_way_count(&self) -> usize
        ensures value { result ≡ count_by is_under_way self.now }
        ensures most { result ≤ 64 }
    {
        let mut count = 0;
        for place in 0..64 {
            if is_under_way(self.handles.phase(FIRST_HANDLE + place)) {
                count += 1;
            }
        }
        count
    }

    /// All become absent.
    pub fn clear(&mut self)
        ensures { self.new ≡ all_absent }
    {
        self.handles.clear();
    }
}

// The handle of the table that goes for a handle: a lesser one than the first is the first.
fn nearest(handle: Handle) -> Option<Handle>
    ensures { MatchOption result (64 ≤ handle - 0x0009) (λ known. IsHandle known × (known - 0x0009 ≡ handle - 0x0009)) }
{
    if handle > LAST_HANDLE {
        None
    } else if handle < FIRST_HANDLE {
        Some(FIRST_HANDLE)
    } else {
        Some(handle)
    }
}

// The post that the handle waits with got this identifier, where it waits with one.
fn grant_if_waiting(handles: &mut Handles, handle: Handle, smid: Smid)
    requires { IsHandle handle }
    ensures { handles.new ≡ with_phase handles.old handle (after_grant (phase_at handles.old handle) smid) }
{
    match handles.phase(handle) {
        Phase::WaitRead | Phase::WaitHigh | Phase::WaitInternal => handles.grant(handle, smid),
        _ => {}
    }
}

// Whether a phase is neither absent nor ready.
fn is_under_way(phase: Phase) -> bool
    ensures { result ≡ is_under_way phase }
{
    !matches!(phase, Phase::Absent | Phase::Ready(_))
}
