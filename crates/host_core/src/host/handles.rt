//! Device handles at the host: disks that are added, whose page is read, that don't respond, and that
//! are removed.
ghost use Rattle.std.specs.Prelude.{◌≡◌, ◌≤◌, ◌+◌, ◌++◌, IsTrue, option_to_list, true};
ghost use Rattle.smid_pool.specs.Pool.{is_open, slot_of};
ghost use Rattle.removal.specs.Handles.{phase_at};
ghost use Rattle.host_tables.specs.Slots.{IsInternalSmid};
ghost use Rattle.mpt_wire.specs.Messages.Fields.{changes_in};
ghost use Rattle.mpt_rules.specs.Host.Removal.{after_handle_added, after_handle_lost, begins_removal, hears_change, hears_changes, hears_event, left, lost_told, ready_told, reads_page, removed};
ghost use Rattle.mpt_rules.specs.Host.Replies.{reply_bytes};

use super::Host;
use host_reading::{Change, HeardReply, is_disk_handle};
use mpi_names::{MPI2_EVENT_SAS_TOPO_RC_TARG_ADDED, MPI2_EVENT_SAS_TOPO_RC_TARG_NOT_RESPONDING};
use mpt_rules::Request;
use mpt_trace::{Address, Entry, Handle, Smid};
use removal::Phase;

impl Host {
    // An event is acknowledged, whatever it is, and then its changes are heard.
    pub(crate) fn hear_event(&mut self, reply: &HeardReply)
        requires { 45 ≤ self.old.room }
        ensures host { self.new.host ≡ (hears_event self.old.host (reply_bytes reply.now)).part }
        ensures told { self.new.told ≡ self.old.told ++ (hears_event self.old.host (reply_bytes reply.now)).entries }
        ensures room { self.old.room ≤ self.new.room + 45 }
        ensures numbers { self.old.has_number_room ≡ true → self.new.has_number_room ≡ true }
    {
        let ack = Request::Ack {
            event: reply.event(),
            context: reply.event_context(),
        };
        self.ask_internal(ack);
        self.hear_changes(reply);
    }

    // The changes of an event are heard, one after the other. Those for which its frame has no room
    // would cause nothing.
    fn hear_changes(&mut self, reply: &HeardReply)
        requires { 44 ≤ self.old.room }
        ensures host { self.new.host ≡ (hears_changes self.old.host (changes_in (reply_bytes reply.now))).part }
        ensures told { self.new.told ≡ self.old.told ++ (hears_changes self.old.host (changes_in (reply_bytes reply.now))).entries }
        ensures room { self.old.room ≤ self.new.room + 44 }
        ensures numbers { self.old.has_number_room ≡ true → self.new.has_number_room ≡ true }
    {
        for place in 0..reply.count_changes() {
            self.hear_change(reply.change_at(place));
        }
    }

    // A change of a disk's handle: the host acts on those that are added, and on those that don't
    // respond. A handle that no disk can have causes nothing.
    fn hear_change(&mut self, change: Change)
        requires { 2 ≤ self.old.room }
        ensures host { self.new.host ≡ (hears_change self.old.host change).part }
        ensures told { self.new.told ≡ self.old.told ++ (hears_change self.old.host change).entries }
        ensures room { self.old.room ≤ self.new.room + 2 }
        ensures numbers { self.old.has_number_room ≡ true → self.new.has_number_room ≡ true }
    {
        let handle = change.handle();
        if !is_disk_handle(handle) {
            return;
        }
        match change.status() {
            MPI2_EVENT_SAS_TOPO_RC_TARG_ADDED => self.add_handle(handle),
            MPI2_EVENT_SAS_TOPO_RC_TARG_NOT_RESPONDING => self.lose_handle(handle),
            _ => {}
        }
    }

    // A disk was added: its page is read. A handle that isn't absent stays as it is.
    fn add_handle(&mut self, handle: Handle)
        requires { 1 ≤ self.old.room }
        ensures host { self.new.host ≡ after_handle_added self.old.host handle (phase_at self.old.host.phases handle) }
        ensures told { self.new.told ≡ self.old.told }
        ensures room { self.old.room ≤ self.new.room + 1 }
        ensures numbers { self.old.has_number_room ≡ true → self.new.has_number_room ≡ true }
    {
        if self.phases.is_absent(handle) {
            self.phases.on_added(handle);
            self.ask_internal(Request::Page { handle });
        }
    }

    // A disk isn't responding: its handle is removed. One that is absent, or is removed already, stays
    // as it is.
    fn lose_handle(&mut self, handle: Handle)
        requires { 2 ≤ self.old.room }
        ensures host { self.new.host ≡ (after_handle_lost self.old.host handle (phase_at self.old.host.phases handle)).part }
        ensures told { self.new.told ≡ self.old.told ++ (after_handle_lost self.old.host handle (phase_at self.old.host.phases handle)).entries }
        ensures room { self.old.room ≤ self.new.room + 2 }
        ensures numbers { self.old.has_number_room ≡ true → self.new.has_number_room ≡ true }
    {
        match self.phases.at(handle) {
            Phase::WaitRead | Phase::Reading(_) | Phase::Ready(_) => self.begin_removal(handle),
            Phase::Absent
            | Phase::WaitHigh
            | Phase::Resetting(_)
            | Phase::WaitInternal
            | Phase::Removing(_) => {}
        }
    }

    // The removal of a handle begins with a target reset. A ready disk is told as lost.
    fn begin_removal(&mut self, handle: Handle)
        requires { 2 ≤ self.old.room }
        ensures host { self.new.host ≡ (begins_removal self.old.host handle (phase_at self.old.host.phases handle)).part }
        ensures told { self.new.told ≡ self.old.told ++ (begins_removal self.old.host handle (phase_at self.old.host.phases handle)).entries }
        ensures room { self.old.room ≤ self.new.room + 2 }
        ensures numbers { self.old.has_number_room ≡ true → self.new.has_number_room ≡ true }
    {
        let lost = self.phases.on_gone(handle);
        self.lists.drop_page(handle);
        self.ask_leave(handle);
        self.tell_if(lost_told(handle, lost));
    }

    // An entry is told, where there is one.
    fn tell_if(&mut self, entry: Option<Entry>)
        requires { 1 ≤ self.old.room }
        ensures host { self.new.host ≡ self.old.host }
        ensures told { self.new.told ≡ self.old.told ++ option_to_list entry }
        ensures room { self.old.room ≤ self.new.room + 1 }
        ensures numbers { self.old.has_number_room ≡ true → self.new.has_number_room ≡ true }
    {
        if let Some(entry) = entry {
            self.tell(entry);
        }
    }

    // The page read of a handle was answered, with the disk's address or without. A page that the
    // handle doesn't read is dropped.
    pub(crate) fn read_page(&mut self, smid: Smid, handle: Handle, page: Option<Address>)
        requires open_now { IsTrue (is_open (slot_of self.old.host.pool smid)) }
        requires class { IsInternalSmid smid }
        requires room { 2 ≤ self.old.room }
        ensures host { self.new.host ≡ (reads_page self.old.host smid handle page).part }
        ensures told { self.new.told ≡ self.old.told ++ (reads_page self.old.host smid handle page).entries }
        ensures room { self.old.room ≤ self.new.room + 2 }
        ensures numbers { self.old.has_number_room ≡ true → self.new.has_number_room ≡ true }
    {
        let ready = ready_told(handle, smid, self.phases.at(handle), page);
        self.phases.on_page(handle, smid, page);
        self.free_internal(smid);
        self.tell_if(ready);
    }

    // The target reset of a removal was answered, with any status: the remove device follows.
    pub(crate) fn leave_handle(&mut self, smid: Smid, handle: Handle)
        requires open_now { IsTrue (is_open (slot_of self.old.host.pool smid)) }
        requires room { 2 ≤ self.old.room }
        ensures host { self.new.host ≡ left self.old.host smid handle }
        ensures told { self.new.told ≡ self.old.told }
        ensures room { self.old.room ≤ self.new.room + 2 }
        ensures numbers { self.old.has_number_room ≡ true → self.new.has_number_room ≡ true }
    {
        let is_reset = self.phases.is_reset_under(handle, smid);
        self.phases.on_task_done(handle, smid);
        self.free_high(smid);
        if is_reset {
            self.ask_internal(Request::Remove { handle });
        }
    }

    // The remove device was answered, with any status.
    pub(crate) fn remove_handle(&mut self, smid: Smid, handle: Handle)
        requires open_now { IsTrue (is_open (slot_of self.old.host.pool smid)) }
        requires class { IsInternalSmid smid }
        requires room { 1 ≤ self.old.room }
        ensures host { self.new.host ≡ removed self.old.host smid handle }
        ensures told { self.new.told ≡ self.old.told }
        ensures room { self.old.room ≤ self.new.room + 1 }
        ensures numbers { self.old.has_number_room ≡ true → self.new.has_number_room ≡ true }
    {
        self.phases.on_removed(handle, smid);
        self.free_internal(smid);
    }
}

// What is told of a disk that isn't responding any more, whose address was ready.
fn lost_told(handle: Handle, lost: Option<Address>) -> Option<Entry>
    ensures { option_to_list result ≡ lost_told handle lost }
{
    match lost {
        Some(address) => Some(Entry::Lost { address, handle }),
        None => None,
    }
}

// What a page tells that came for a handle in this phase.
fn ready_told(handle: Handle, smid: Smid, phase: Phase, page: Option<Address>) -> Option<Entry>
    ensures { option_to_list result ≡ ready_told handle smid phase page }
{
    match (phase, page) {
        (Phase::Reading(read), Some(address)) if read == smid => {
            Some(Entry::Ready { address, handle })
        }
        _ => None,
    }
}
