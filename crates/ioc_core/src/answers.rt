//! What every step of the controller is made of: what it says and sends, and what it keeps of identifiers and handles.
//! Each item that is said, sent, told or held takes one of the room that was made.
ghost use Rattle.std.specs.Prelude.{◌≡◌, ◌≤◌, ◌<◌, ◌+◌, ◌++◌, ◌∷◌, [], true, false, None, Some, IfNone, IsTrue, OnSome, length};
ghost use Rattle.mpt_messages.specs.IocFrames.{IsAnswer};
ghost use Rattle.mpt_rules.specs.Ioc.Parts.{ioc_queue_count, state_of};
ghost use Rattle.mpt_rules.specs.Ioc.Replies.{ioc_answers, queue_named, says_on, with_out_item};
ghost use Rattle.mpt_rules.specs.Ioc.Tables.{binding_of, faults, has_commands, is_operational, is_unbound, request_at, with_request, without_request};
ghost use Rattle.ioc_tables.specs.Bindings.{is_table_handle};
ghost use Rattle.ioc_tables.specs.Requests.{has_table_handle};
ghost use Rattle.ioc_core.specs.Disks.{is_placed};

use crate::ioc::Ioc;
use ioc_replies::{MAX_QUEUES, framed};
use mpi_doorbell::IocState;
use mpt_messages::IocReply;
use mpt_rules::{AtFabric, Binding, HeldReset, Said};
use mpt_trace::{Entry, Handle, Out, Smid};

impl Ioc {
    // ---- what is said, sent and told

    /// An item goes behind what waits for a reply queue. Where there is no such queue it is dropped.
    pub(crate) fn say_on(&mut self, queue: u8, said: Said)
        requires { 1 ≤ self.old.room }
        ensures part { self.new.part ≡ says_on self.old.part queue (said ∷ []) }
        ensures told { self.new.told ≡ self.old.told }
        ensures room { self.new.room + 1 ≡ self.old.room }
    {
        self.lists.say(queue, said);
    }

    /// A request is answered on queue 0.
    pub(crate) fn answer(&mut self, smid: Smid, reply: IocReply)
        requires room { 1 ≤ self.old.room }
        requires known { IsAnswer reply }
        ensures part { self.new.part ≡ ioc_answers self.old.part smid reply }
        ensures told { self.new.told ≡ self.old.told }
        ensures room { self.new.room + 1 ≡ self.old.room }
    {
        let said = framed(self.alloc, smid, reply);
        self.say_on(0, said);
    }

    /// An item goes behind what waits for the fabric.
    pub(crate) fn send_out(&mut self, item: Out)
        requires { 1 ≤ self.old.room }
        ensures part { self.new.part ≡ with_out_item self.old.part item }
        ensures told { self.new.told ≡ self.old.told }
        ensures room { self.new.room + 1 ≡ self.old.room }
    {
        self.lists.send(item);
    }

    /// An entry is told.
    pub(crate) fn tell(&mut self, entry: Entry)
        requires { 1 ≤ self.old.room }
        ensures part { self.new.part ≡ self.old.part }
        ensures told { self.new.told ≡ self.old.told ++ entry ∷ [] }
        ensures room { self.new.room + 1 ≡ self.old.room }
    {
        self.lists.tell(entry);
    }

    /// A target reset waits for the last command of its handle.
    pub(crate) fn hold(&mut self, held: HeldReset)
        requires { 1 ≤ self.old.room }
        ensures part { self.new.part ≡ record self.old.part { held = self.old.part.held ++ held ∷ [] } }
        ensures told { self.new.told ≡ self.old.told }
        ensures room { self.new.room + 1 ≡ self.old.room }
    {
        self.lists.hold(held);
    }

    // ---- the state

    /// The controller's state.
    pub(crate) fn state(&self) -> IocState
        ensures { result ≡ state_of self.now.part }
    {
        self.door.state()
    }

    /// Whether it takes posts, returned frames and what the fabric tells.
    pub(crate) fn is_operational(&self) -> bool
        ensures { result ≡ is_operational (state_of self.now.part) }
    {
        matches!(self.state(), IocState::Operational)
    }

    /// The controller stops, for the reason that the code stands for.
    pub(crate) fn fault(&mut self, code: u16)
        ensures part { self.new.part ≡ faults self.old.part code }
        ensures told { self.new.told ≡ self.old.told }
        ensures room { self.new.room ≡ self.old.room }
    {
        self.door.set_state(IocState::Fault(code));
    }

    // ---- reply queues

    /// How many reply queues there are.
    pub(crate) fn queue_count(&self) -> u8
        ensures count { result ≡ ioc_queue_count self.now.part }
        ensures least { 1 ≤ result }
        ensures most { result ≤ MAX_QUEUES }
    {
        self.lists.queues()
    }

    /// The reply queue that a request descriptor's MSIxIndex names: queue 0 where IOC Init asked for fewer.
    pub(crate) fn queue_named(&self, descriptor: u64) -> u8
        ensures { result ≡ queue_named self.now.part descriptor }
    {
        let queue = (descriptor / 0x100 % 0x100) as u8;
        if queue < self.vectors { queue } else { 0 }
    }

    // ---- identifiers

    /// What is at the fabric for an identifier.
    pub(crate) fn request_at(&self, smid: Smid) -> Option<AtFabric>
        ensures { result ≡ request_at self.now.part smid }
    {
        self.requests.get(smid)
    }

    /// Something of an identifier is at the fabric from now on, in place of what may be there.
    pub(crate) fn set_request(&mut self, smid: Smid, request: AtFabric)
        requires identifier { (1 ≤ smid) × (smid ≤ 280) }
        requires handle { IsTrue (has_table_handle request) }
        ensures part { self.new.part ≡ with_request self.old.part smid request }
        ensures told { self.new.told ≡ self.old.told }
        ensures room { self.new.room ≡ self.old.room }
    {
        self.requests.set(smid, request);
    }

    /// Takes away what is at the fabric for an identifier. None exactly where nothing is.
    pub(crate) fn take_request(&mut self, smid: Smid) -> Option<AtFabric>
        ensures value { result ≡ request_at self.old.part smid }
        ensures taken { OnSome result (self.new.part ≡ without_request self.old.part smid) }
        ensures stays { IfNone result (self.new.part ≡ self.old.part) }
        ensures told { self.new.told ≡ self.old.told }
        ensures room { self.new.room ≡ self.old.room }
    {
        self.requests.take(smid)
    }

    /// Whether SCSI IOs of the handle are at the fabric.
    pub(crate) fn has_commands(&self, handle: Handle) -> bool
        ensures { result ≡ has_commands self.now.part handle }
    {
        self.requests.has_commands(handle)
    }

    // ---- handles

    /// What a handle stands for: nothing where it isn't from 0x0009 to 0x0048.
    pub fn binding(&self, handle: Handle) -> Binding
        ensures value { result ≡ binding_of self.now.part handle }
        ensures in_table { is_unbound result ≡ false → is_table_handle handle ≡ true }
        ensures placed { is_placed result ≡ true }
    {
        self.disks.get(handle)
    }
}
