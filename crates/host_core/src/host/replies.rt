//! Replies that the host takes: the ring, the frame, and what each answers.
ghost use Rattle.std.specs.Prelude.{◌≡◌, ◌≢◌, ◌<◌, ◌≤◌, ◌+◌, ◌++◌, IsTrue, None, Some, length, true};
ghost use Rattle.smid_pool.specs.Pool.{is_open, record_of, slot_of};
ghost use Rattle.host_tables.specs.Slots.{IsInternalSmid, is_internal};
ghost use Rattle.mpt_rules.specs.Host.Replies.{after_port_enable, closes_abort, ends_target, hears_answer, hears_notified, hears_reply, hears_reply_to, host_answers, host_ends_abort, reply_bytes, takes_entry, with_frame_heard};
ghost use Rattle.mpt_rules.specs.Host.Strange.{not_returned, why_reply};

use super::Host;
use host_reading::HeardReply;
use mpi_doorbell::registers::REPLY_POST_HOST_INDEX;
use mpt_rules::Request;
use mpt_trace::{Address, Down, Entry, HostState, Outcome, Smid, TargetOutcome};

// The queue stands in the highest eight bits of what is written to ReplyPostHostIndex.
const QUEUE: u32 = 0x0100_0000;

impl Host {
    // A reply comes on a queue: first its frame goes back and the ring's entry is given free, and then
    // it is heard.
    pub(crate) fn hear_reply(&mut self, queue: u8, reply: HeardReply)
        requires queue { queue < length self.old.host.indices }
        requires known { why_reply self.old.host queue reply.descriptor reply.frame reply.page ≡ None }
        requires room { 47 ≤ self.old.room }
        ensures host { self.new.host ≡ (hears_reply self.old.host queue reply).part }
        ensures told { self.new.told ≡ self.old.told ++ (hears_reply self.old.host queue reply).entries }
        ensures room { self.old.room ≤ self.new.room + 47 }
        ensures numbers { self.old.has_number_room ≡ true → self.new.has_number_room ≡ true }
    {
        let smid = reply.smid();
        let asked = self.pool.get(smid);
        self.take_frame(&reply);
        self.take_entry(queue, reply.descriptor());
        match asked {
            Some(request) => self.hear_answer(smid, request, reply),
            None => self.hear_news(&reply),
        }
    }

    // The frame of a reply goes back, where it has one.
    fn take_frame(&mut self, reply: &HeardReply)
        requires frame { not_returned self.old.host reply.now.descriptor reply.now.frame ≡ None }
        requires room { 1 ≤ self.old.room }
        ensures host { self.new.host ≡ with_frame_heard self.old.host reply.now.descriptor reply.now.frame }
        ensures told { self.new.told ≡ self.old.told }
        ensures room { self.old.room ≤ self.new.room + 1 }
        ensures numbers { self.old.has_number_room ≡ true → self.new.has_number_room ≡ true }
    {
        if let Some(frame) = reply.frame() {
            self.take_frame_back(frame);
        }
    }

    // The descriptor was read, and its entry of the queue's ring is unused again.
    fn take_entry(&mut self, queue: u8, descriptor: u64)
        requires queue { queue < length self.old.host.indices }
        requires used { descriptor ≢ 0xffff_ffff_ffff_ffff }
        requires room { 1 ≤ self.old.room }
        ensures host { self.new.host ≡ takes_entry self.old.host queue }
        ensures told { self.new.told ≡ self.old.told }
        ensures room { self.old.room ≤ self.new.room + 1 }
        ensures numbers { self.old.has_number_room ≡ true → self.new.has_number_room ≡ true }
    {
        let index = self.rings.take(queue, descriptor);
        self.lists.push_down(Down::Write {
            reg: REPLY_POST_HOST_INDEX,
            value: u32::from(queue) * QUEUE + u32::from(index),
        });
    }

    // A reply without a request is an event. While a reset is going on it causes nothing.
    fn hear_news(&mut self, reply: &HeardReply)
        requires { 45 ≤ self.old.room }
        ensures host { self.new.host ≡ (hears_reply_to self.old.host 0 None reply.now).part }
        ensures told { self.new.told ≡ self.old.told ++ (hears_reply_to self.old.host 0 None reply.now).entries }
        ensures room { self.old.room ≤ self.new.room + 45 }
        ensures numbers { self.old.has_number_room ≡ true → self.new.has_number_room ≡ true }
    {
        if !self.is_resetting() {
            self.hear_event(reply);
        }
    }

    // A reply to the request of an open identifier. A command, an abort and a target reset that was
    // asked are answered also while a reset is going on; a reply to any other request then frees its
    // identifier, and causes nothing else.
    fn hear_answer(&mut self, smid: Smid, request: Request, reply: HeardReply)
        requires open_now { IsTrue (is_open (slot_of self.old.host.pool smid)) }
        requires class { is_internal request ≡ true → IsInternalSmid smid }
        requires room { 2 ≤ self.old.room }
        ensures host { self.new.host ≡ (hears_answer self.old.host smid request reply).part }
        ensures told { self.new.told ≡ self.old.told ++ (hears_answer self.old.host smid request reply).entries }
        ensures room { self.old.room ≤ self.new.room + 2 }
        ensures numbers { self.old.has_number_room ≡ true → self.new.has_number_room ≡ true }
    {
        match request {
            Request::Command { n } => self.answer_command(smid, n, reply.into_outcome()),
            Request::Abort { n, task } => self.end_abort(smid, n, task, &reply),
            Request::TargetReset { address } => self.end_target(smid, address, &reply),
            _ if self.is_resetting() => self.free(smid),
            Request::Leave { handle } => self.leave_handle(smid, handle),
            Request::Page { handle } => self.read_page(smid, handle, reply.address()),
            Request::Remove { handle } => self.remove_handle(smid, handle),
            Request::Ack { .. } => self.free_internal(smid),
            Request::Notification => self.hear_notified(smid),
            Request::PortEnable => self.end_start(smid),
        }
    }

    // A command is answered, and its number isn't open any more. Its identifier is free, or parked
    // while an abort names the command.
    fn answer_command(&mut self, smid: Smid, n: u32, outcome: Outcome)
        requires open_now { IsTrue (is_open (slot_of self.old.host.pool smid)) }
        requires room { 1 ≤ self.old.room }
        ensures host { self.new.host ≡ (host_answers self.old.host smid n outcome).part }
        ensures told { self.new.told ≡ self.old.told ++ (host_answers self.old.host smid n outcome).entries }
        ensures room { self.old.room ≤ self.new.room + 1 }
        ensures numbers { self.old.has_number_room ≡ true → self.new.has_number_room ≡ true }
    {
        if self.aborts.get(n).is_some() {
            self.pool.park(smid);
        } else {
            self.pool.free(smid);
        }
        self.cmds.remove(n);
        self.tell(Entry::Answer { n, outcome });
    }

    // An abort is told as ended, and its identifier is given on.
    fn end_abort(&mut self, smid: Smid, n: u32, task: Smid, reply: &HeardReply)
        requires open_now { IsTrue (is_open (slot_of self.old.host.pool smid)) }
        requires room { 2 ≤ self.old.room }
        ensures host { self.new.host ≡ (host_ends_abort self.old.host smid n task (reply_bytes reply.now)).part }
        ensures told { self.new.told ≡ self.old.told ++ (host_ends_abort self.old.host smid n task (reply_bytes reply.now)).entries }
        ensures room { self.old.room ≤ self.new.room + 2 }
        ensures numbers { self.old.has_number_room ≡ true → self.new.has_number_room ≡ true }
    {
        self.close_abort(n, task);
        self.free_high(smid);
        self.tell(Entry::AbortEnd {
            n,
            outcome: reply.abort_outcome(),
        });
    }

    // The abort of a number isn't open any more. The identifier of the command that it named is free
    // from now on where it was parked.
    fn close_abort(&mut self, n: u32, task: Smid)
        ensures host { self.new.host ≡ closes_abort self.old.host n task }
        ensures told { self.new.told ≡ self.old.told }
        ensures room { self.new.room ≡ self.old.room }
        ensures numbers { self.old.has_number_room ≡ true → self.new.has_number_room ≡ true }
    {
        self.aborts.remove(n);
        if self.pool.is_parked(task) {
            self.pool.free_parked(task);
        }
    }

    // A target reset that was asked from outside is told with the number of commands that it
    // terminated, whatever the status.
    fn end_target(&mut self, smid: Smid, address: Address, reply: &HeardReply)
        requires open_now { IsTrue (is_open (slot_of self.old.host.pool smid)) }
        requires room { 2 ≤ self.old.room }
        ensures host { self.new.host ≡ (ends_target self.old.host smid address (reply_bytes reply.now)).part }
        ensures told { self.new.told ≡ self.old.told ++ (ends_target self.old.host smid address (reply_bytes reply.now)).entries }
        ensures room { self.old.room ≤ self.new.room + 2 }
        ensures numbers { self.old.has_number_room ≡ true → self.new.has_number_room ≡ true }
    {
        self.free_high(smid);
        self.tell(Entry::TargetEnd {
            address,
            outcome: TargetOutcome::Done(reply.termination_count()),
        });
    }

    // After the reply of the event notification the port is enabled.
    fn hear_notified(&mut self, smid: Smid)
        requires open_now { IsTrue (is_open (slot_of self.old.host.pool smid)) }
        requires class { IsInternalSmid smid }
        requires room { 2 ≤ self.old.room }
        ensures host { self.new.host ≡ hears_notified self.old.host smid }
        ensures told { self.new.told ≡ self.old.told }
        ensures room { self.old.room ≤ self.new.room + 2 }
        ensures numbers { self.old.has_number_room ≡ true → self.new.has_number_room ≡ true }
    {
        self.free_internal(smid);
        self.ask_internal(Request::PortEnable);
    }

    // The port was enabled: the host is up.
    fn end_start(&mut self, smid: Smid)
        requires open_now { IsTrue (is_open (slot_of self.old.host.pool smid)) }
        requires class { IsInternalSmid smid }
        requires room { 2 ≤ self.old.room }
        ensures host { self.new.host ≡ (after_port_enable self.old.host smid).part }
        ensures told { self.new.told ≡ self.old.told ++ (after_port_enable self.old.host smid).entries }
        ensures room { self.old.room ≤ self.new.room + 2 }
        ensures numbers { self.old.has_number_room ≡ true → self.new.has_number_room ≡ true }
    {
        self.free_internal(smid);
        self.mode = HostState::Up;
        self.tell(Entry::HostUp);
    }
}
