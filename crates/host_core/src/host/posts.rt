//! The host's requests: the post of each, and who gets an identifier.
ghost use Rattle.std.specs.Prelude.{◌≡◌, ◌≤◌, ◌+◌, ◌-◌, ◌++◌, ◌∷◌, [], IsTrue, true, List};
ghost use Rattle.scsi_disk.specs.Command.{fits};
ghost use Rattle.smid_pool.specs.Pool.{Free, is_open, slot_of, with_slot};
ghost use Rattle.host_tables.specs.Slots.{IsInternalSmid, is_internal};
ghost use Rattle.mpi_rings.specs.declared.request_descriptor.PostKind.TheVariants as post;
ghost use Rattle.mpt_messages.specs.HostFrames.{IsAsk, IsTask};
ghost use Rattle.mpt_trace.specs.declared.item.Down.TheVariants as down;
ghost use Rattle.mpt_wire.specs.Messages.Fields.{post_descriptor};
ghost use Rattle.mpt_rules.specs.Host.Posts.{asks_internal, asks_leave, command_asked, frame_asked, frees, frees_high, frees_internal};
ghost use Rattle.host_core.specs.Posts.{internal_ask, phases_granted, waiting_handle};

use super::Host;
use host_tables::{HandlePhases, HostLists};
use mpi_names::{
    MPI2_REQ_DESCRIPT_FLAGS_DEFAULT_TYPE, MPI2_REQ_DESCRIPT_FLAGS_HIGH_PRIORITY,
    MPI2_REQ_DESCRIPT_FLAGS_SCSI_IO, MPI2_SCSITASKMGMT_TASKTYPE_TARGET_RESET,
};
use mpi_rings::PostKind;
use mpt_messages::HostAsk;
use mpt_rules::Request;
use mpt_trace::{Handle, Smid};
use scsi_disk::{Bytes, Command, Direction};
use std::alloc::Global;

impl Host {
    // The target reset of a handle's removal is posted under the least free identifier, and waits
    // where there is none.
    pub(crate) fn ask_leave(&mut self, handle: Handle)
        requires { 1 ≤ self.old.room }
        ensures host { self.new.host ≡ asks_leave self.old.host handle }
        ensures told { self.new.told ≡ self.old.told }
        ensures room { self.old.room ≤ self.new.room + 1 }
        ensures numbers { self.new.has_number_room ≡ self.old.has_number_room }
        ensures aborts { self.new.has_abort_room ≡ self.old.has_abort_room }
    {
        match self.pool.open_high(Request::Leave { handle }) {
            Some(smid) => {
                self.phases.grant(handle, smid);
                push_leave(&mut self.lists, self.alloc, smid, handle);
            }
            None => self.lists.push_high(handle),
        }
    }

    // A request of the internal class is posted under the least free identifier, and waits where there
    // is none.
    pub(crate) fn ask_internal(&mut self, request: Request)
        requires room { 1 ≤ self.old.room }
        requires class { is_internal request ≡ true }
        ensures host { self.new.host ≡ asks_internal self.old.host request }
        ensures told { self.new.told ≡ self.old.told }
        ensures room { self.old.room ≤ self.new.room + 1 }
        ensures numbers { self.new.has_number_room ≡ self.old.has_number_room }
        ensures aborts { self.new.has_abort_room ≡ self.old.has_abort_room }
    {
        match self.pool.open_internal(request) {
            Some(smid) => {
                grant(&mut self.phases, smid, &request);
                push_internal(&mut self.lists, self.alloc, smid, &request);
            }
            None => self.lists.push_internal(request),
        }
    }

    // An identifier of a SCSI IO, or of a request that is answered while a reset is going on, is free.
    pub(crate) fn free(&mut self, smid: Smid)
        requires { IsTrue (is_open (slot_of self.old.host.pool smid)) }
        ensures host { self.new.host ≡ frees self.old.host smid }
        ensures told { self.new.told ≡ self.old.told }
        ensures room { self.new.room ≡ self.old.room }
        ensures numbers { self.new.has_number_room ≡ self.old.has_number_room }
        ensures aborts { self.new.has_abort_room ≡ self.old.has_abort_room }
    {
        self.pool.free(smid);
    }

    // An identifier of task management is free, and the first target reset that waits gets it.
    pub(crate) fn free_high(&mut self, smid: Smid)
        requires open_now { IsTrue (is_open (slot_of self.old.host.pool smid)) }
        requires room { 1 ≤ self.old.room }
        ensures host { self.new.host ≡ frees_high self.old.host smid }
        ensures told { self.new.told ≡ self.old.told }
        ensures room { self.old.room ≤ self.new.room + 1 }
        ensures numbers { self.new.has_number_room ≡ self.old.has_number_room }
        ensures aborts { self.new.has_abort_room ≡ self.old.has_abort_room }
    {
        match self.lists.pop_high() {
            Some(handle) => {
                self.pool.reopen(smid, Request::Leave { handle });
                self.phases.grant(handle, smid);
                push_leave(&mut self.lists, self.alloc, smid, handle);
            }
            None => self.pool.free(smid),
        }
    }

    // An identifier of the internal class is free, and the first request that waits gets it.
    pub(crate) fn free_internal(&mut self, smid: Smid)
        requires open_now { IsTrue (is_open (slot_of self.old.host.pool smid)) }
        requires class { IsInternalSmid smid }
        requires room { 1 ≤ self.old.room }
        ensures host { self.new.host ≡ frees_internal self.old.host smid }
        ensures told { self.new.told ≡ self.old.told }
        ensures room { self.old.room ≤ self.new.room + 1 }
        ensures numbers { self.new.has_number_room ≡ self.old.has_number_room }
        ensures aborts { self.new.has_abort_room ≡ self.old.has_abort_room }
    {
        match self.lists.pop_internal() {
            Some(request) => {
                self.pool.reopen(smid, request);
                grant(&mut self.phases, smid, &request);
                push_internal(&mut self.lists, self.alloc, smid, &request);
            }
            None => self.pool.free(smid),
        }
    }
}

// The handle whose phase waits for the identifier of a request gets it.
fn grant(phases: &mut HandlePhases, smid: Smid, request: &Request)
    ensures { phases.new ≡ phases_granted phases.old (waiting_handle request.now) smid }
{
    match *request {
        Request::Page { handle } | Request::Remove { handle } => phases.grant(handle, smid),
        _ => {}
    }
}

// A request of the internal class goes out under an identifier.
fn push_internal(lists: &mut HostLists, alloc: Global, smid: Smid, request: &Request)
    requires room { 1 ≤ lists.old.room }
    requires smid { IsInternalSmid smid }
    ensures { lists.new ≡ record lists.old {
      down = lists.old.down ++ down.Post (post_descriptor post.Default 0 smid 0) (frame_asked (internal_ask smid request.now)) [] ∷ [];
      room = lists.old.room - 1;
    } }
{
    let ask = ask_of(smid, request);
    let descriptor = descriptor_of(PostKind::Default, 0, smid, 0);
    lists.push_post(descriptor, &ask, Bytes::empty(alloc));
}

// What a request of the internal class asks.
fn ask_of(smid: Smid, request: &Request) -> HostAsk
    requires { IsInternalSmid smid }
    ensures value { result ≡ internal_ask smid request.now }
    ensures known { IsAsk result }
{
    match *request {
        Request::Page { handle } => HostAsk::PageRead { smid, handle },
        Request::Remove { handle } => HostAsk::Remove { handle },
        Request::Ack { event, context } => HostAsk::Ack { event, context },
        Request::Notification => HostAsk::Notification,
        _ => HostAsk::PortEnable,
    }
}

// The target reset of a handle's removal goes out under an identifier.
fn push_leave(lists: &mut HostLists, alloc: Global, smid: Smid, handle: Handle)
    requires { 1 ≤ lists.old.room }
    ensures { lists.new ≡ record lists.old {
      down = lists.old.down ++ down.Post (post_descriptor post.HighPriority 0 smid 0) (frame_asked (HostAsk.Task handle 3 0)) [] ∷ [];
      room = lists.old.room - 1;
    } }
{
    push_task(
        lists,
        alloc,
        smid,
        handle,
        MPI2_SCSITASKMGMT_TASKTYPE_TARGET_RESET,
        0,
    );
}

// Task management of a type for a handle goes out, with the identifier of the task that it aborts.
pub(crate) fn push_task(
    lists: &mut HostLists,
    alloc: Global,
    smid: Smid,
    handle: Handle,
    task_type: u8,
    task_mid: Smid,
)
    requires room { 1 ≤ lists.old.room }
    requires task { IsTask task_type task_mid }
    ensures { lists.new ≡ record lists.old {
      down = lists.old.down ++ down.Post (post_descriptor post.HighPriority 0 smid 0) (frame_asked (HostAsk.Task handle task_type task_mid)) [] ∷ [];
      room = lists.old.room - 1;
    } }
{
    let ask = HostAsk::Task {
        handle,
        task_type,
        task_mid,
    };
    let descriptor = descriptor_of(PostKind::HighPriority, 0, smid, 0);
    lists.push_post(descriptor, &ask, Bytes::empty(alloc));
}

// A command goes out to a handle under an identifier, and its reply is to come on this queue.
pub(crate) fn push_command(
    lists: &mut HostLists,
    queue: u8,
    smid: Smid,
    handle: Handle,
    command: Command,
)
    requires smid { (1 ≤ smid) × (smid ≤ 256) }
    requires fits { fits command ≡ true }
    requires room { 1 ≤ lists.old.room }
    ensures { lists.new ≡ record lists.old {
      down = lists.old.down ++ down.Post (post_descriptor post.ScsiIo queue smid handle) (frame_asked (command_asked smid handle command)) command.payload ∷ [];
      room = lists.old.room - 1;
    } }
{
    let ask = command_ask(smid, handle, &command);
    let descriptor = descriptor_of(PostKind::ScsiIo, queue, smid, handle);
    lists.push_post(descriptor, &ask, command.payload);
}

// What a command asks.
fn command_ask(smid: Smid, handle: Handle, command: &Command) -> HostAsk
    requires smid { (1 ≤ smid) × (smid ≤ 256) }
    requires fits { fits command.now ≡ true }
    ensures value { result ≡ command_asked smid handle command.now }
    ensures known { IsAsk result }
{
    let bytes = command.cdb.as_slice();
    let mut cdb = [0; 16];
    cdb[..bytes.len()].copy_from_slice(bytes);
    HostAsk::ScsiIo {
        smid,
        handle,
        lun: command.lun,
        cdb,
        cdb_len: bytes.len() as u8,
        len: command.len,
        write: matches!(command.direction(), Direction::Write),
    }
}

// A request descriptor as the number of its bytes.
pub(crate) fn descriptor_of(kind: PostKind, msix: u8, smid: Smid, handle: Handle) -> u64
    ensures { result ≡ post_descriptor kind msix smid handle }
{
    let flags = match kind {
        PostKind::ScsiIo => MPI2_REQ_DESCRIPT_FLAGS_SCSI_IO,
        PostKind::HighPriority => MPI2_REQ_DESCRIPT_FLAGS_HIGH_PRIORITY,
        PostKind::Default => MPI2_REQ_DESCRIPT_FLAGS_DEFAULT_TYPE,
    };
    u64::from(flags)
        + u64::from(msix) * 0x100
        + u64::from(smid) * 0x1_0000
        + u64::from(handle) * 0x1_0000_0000_0000
}
