//! The lists of a controller that grow.
ghost use Rattle.std.specs.Prelude.{◌≡◌, ◌≤◌, ◌<◌, ◌-◌, ◌^◌, ◌++◌, ◌∷◌, [], IfOk, OnOk, drop, filter, length, map, not, option_copied, replicate, slice_get, slice_set, sum_by};
ghost use Rattle.std.specs.List.{list_all, list_any};
ghost use Rattle.mpt_rules.specs.Ioc.Places.{is_empty, is_reply_of};
ghost use Rattle.mpt_rules.specs.Ioc.Tables.{is_held_as};
ghost use Rattle.mpt_rules.specs.World.Weight.{said_items};
ghost use Rattle.ioc_replies.specs.Outboxes.{after_put, waiting_for};
ghost use Rattle.mpt_rules.specs.Ioc.Commands.{held_answered, is_held_for};
ghost use Rattle.ioc_core.specs.Lists.{after_puts, after_renewal, lists_of};

use ioc_replies::{MAX_QUEUES, Outboxes, framed};
use mpi_names::MPI2_SCSITASKMGMT_TASKTYPE_TARGET_RESET;
use mpt_messages::IocReply;
use mpt_rules::{HeldReset, IOC_STATUS_SUCCESS, OutOfMemory, Said};
use mpt_trace::{Entry, Handle, Out, Smid};
use std::alloc::Global;
use std::collections::VecDeque;
use std::marker::Model;

/// What waits for the reply queues and for the fabric, what the controller tells, and the target resets that wait for
/// the last command of their handle. Where `make_room` was called before, items come in without memory.
#[derive(Drop)]
pub struct IocLists {
    up: Outboxes,
    out: VecDeque<Out>,
    told: VecDeque<Entry>,
    held: VecDeque<HeldReset>,
    room: usize,
}

impl Model for IocLists {
    ghost use Rattle.ioc_core.specs.Lists.{HaveSpare, ListsSeen};

    ghost Value = { ListsSeen };

    ghost view = { λ l. record { up = l.up.boxes; out = l.out.items; told = l.told.items; held = l.held.items; room = l.room } };

    ghost invariant = { λ l. HaveSpare l.up.room l.out l.told l.held l.room };
}

impl IocLists {
    /// Empty lists, with so many reply queues; or OutOfMemory.
    pub fn new(alloc: Global, queues: u8) -> Result<IocLists, OutOfMemory>
        requires least { 1 ≤ queues }
        requires most { queues ≤ MAX_QUEUES }
        ensures { IfOk result (λ lists. lists ≡ lists_of (replicate queues [])) }
    {
        let up = Outboxes::new(alloc, queues)?;
        Ok(IocLists {
            up,
            out: VecDeque::new(alloc),
            told: VecDeque::new(alloc),
            held: VecDeque::new(alloc),
            room: 0,
        })
    }

    /// Makes room for so many items in each list. It takes no memory where there is as much. Where memory is wanting no
    /// list changes.
    pub fn make_room(&mut self, count: usize) -> Result<(), OutOfMemory>
        ensures ok { OnOk result (count ≤ self.new.room) }
        ensures up { self.new.up ≡ self.old.up }
        ensures out { self.new.out ≡ self.old.out }
        ensures told { self.new.told ≡ self.old.told }
        ensures held { self.new.held ≡ self.old.held }
    {
        if count <= self.room {
            return Ok(());
        }
        self.room = 0;
        self.up.reserve(count)?;
        self.out.try_reserve(count)?;
        self.told.try_reserve(count)?;
        self.held.try_reserve(count)?;
        self.room = count;
        Ok(())
    }

    /// How many reply queues there are.
    pub fn queues(&self) -> u8
        ensures count { result ≡ length self.now.up }
        ensures least { 1 ≤ result }
        ensures most { result ≤ MAX_QUEUES }
    {
        self.up.queues()
    }

    /// An item is to be put for a reply queue, after the others. Where there is no such queue it is dropped.
    pub fn say(&mut self, queue: u8, said: Said)
        requires { 1 ≤ self.old.room }
        ensures { self.new ≡ record self.old { up = after_put queue said self.old.up; room = self.old.room - 1 } }
    {
        self.room -= 1;
        self.up.put(queue, said);
    }

    /// An item is to be put for the fabric, after the others.
    pub fn send(&mut self, item: Out)
        requires { 1 ≤ self.old.room }
        ensures { self.new ≡ record self.old { out = self.old.out ++ item ∷ []; room = self.old.room - 1 } }
    {
        self.room -= 1;
        self.out.push_back_reserved(item);
    }

    /// An entry is told, after the others.
    pub fn tell(&mut self, entry: Entry)
        requires { 1 ≤ self.old.room }
        ensures { self.new ≡ record self.old { told = self.old.told ++ entry ∷ []; room = self.old.room - 1 } }
    {
        self.room -= 1;
        self.told.push_back_reserved(entry);
    }

    /// A target reset waits for the last command of its handle, after the others.
    pub fn hold(&mut self, held: HeldReset)
        requires { 1 ≤ self.old.room }
        ensures { self.new ≡ record self.old { held = self.old.held ++ held ∷ []; room = self.old.room - 1 } }
    {
        self.room -= 1;
        self.held.push_back_reserved(held);
    }

    /// What a reset of this generation drops is dropped, its marks are put, and its link. There is room.
    pub fn renew(&mut self, generation: u32)
        requires { 1 ≤ self.old.room }
        ensures { self.new ≡ after_renewal generation self.old }
    {
        self.room = 0;
        self.up.renew(generation);
        self.out.clear();
        self.out.push_back_reserved(Out::Link { generation });
        self.held.clear();
    }

    /// What is put next for a reply queue, which stays. None exactly where nothing waits for it.
    pub fn front_up(&self, queue: u8) -> Option<&Said>
        ensures { option_copied result ≡ slice_get (waiting_for queue self.now.up) 0 }
    {
        self.up.front(queue)
    }

    /// Takes what is put next for a reply queue. None exactly where nothing waits for it.
    pub fn pop_up(&mut self, queue: u8) -> Option<Said>
        ensures front { result ≡ slice_get (waiting_for queue self.old.up) 0 }
        ensures rest { self.new ≡ record self.old { up = slice_set self.old.up queue (drop 1 (waiting_for queue self.old.up)); room = 0 } }
    {
        self.room = 0;
        self.up.pop(queue)
    }

    /// What is put next for the fabric, which stays. None exactly where there is nothing.
    pub fn front_out(&self) -> Option<&Out>
        ensures { option_copied result ≡ slice_get self.now.out 0 }
    {
        self.out.front()
    }

    /// Takes what is put next for the fabric. There is something.
    pub fn pop_out(&mut self) -> Out
        requires { 0 < length self.old.out }
        ensures first { self.old.out ≡ result ∷ self.new.out }
        ensures rest { self.new ≡ record self.old { out = drop 1 self.old.out } }
    {
        self.out.pop_front().unwrap()
    }

    /// Takes the next told entry. None exactly where there is none.
    pub fn pop_told(&mut self) -> Option<Entry>
        ensures first { result ≡ slice_get self.old.told 0 }
        ensures rest { self.new ≡ record self.old { told = drop 1 self.old.told } }
    {
        self.told.pop_front()
    }

    /// The target resets that wait for the handle are answered on queue 0, the first processed first. There is room.
    pub fn answer_held(&mut self, alloc: Global, handle: Handle)
        requires { length self.old.held ≤ self.old.room }
        ensures up { self.new.up ≡ after_puts 0 (map held_answered (filter (is_held_for handle) self.old.held)) self.old.up }
        ensures held { self.new.held ≡ filter (λ held. not (is_held_for handle held)) self.old.held }
        ensures out { self.new.out ≡ self.old.out }
        ensures told { self.new.told ≡ self.old.told }
    {
        self.room = 0;
        put_answers(alloc, handle, &self.held, &mut self.up);
        self.held.retain(|held| held.handle != handle);
    }

    /// Whether a target reset of the identifier waits.
    pub fn has_held(&self, smid: Smid) -> bool
        ensures { result ≡ list_any (is_held_as smid) self.now.held }
    {
        self.held.iter().any(|held| held.smid == smid)
    }

    /// How many target resets wait.
    pub fn held_count(&self) -> usize
        ensures { result ≡ length self.now.held }
    {
        self.held.len()
    }

    /// Whether a reply of the identifier waits for a reply queue.
    pub fn has_reply(&self, smid: Smid) -> bool
        ensures { result ≡ list_any (list_any (is_reply_of smid)) self.now.up }
    {
        self.up.has_reply(smid)
    }

    /// How many items wait for the reply queues, values not counted.
    pub fn said_count(&self) -> u128
        ensures value { result ≡ sum_by said_items self.now.up }
        ensures most { result ≤ 2 ^ 67 }
    {
        self.up.said_count()
    }

    /// How many items wait for the fabric.
    pub fn out_count(&self) -> usize
        ensures { result ≡ length self.now.out }
    {
        self.out.len()
    }

    /// Whether nothing waits for a reply queue.
    pub fn is_up_empty(&self) -> bool
        ensures { result ≡ list_all is_empty self.now.up }
    {
        self.up.is_empty()
    }

    /// Whether nothing waits for the fabric.
    pub fn is_out_empty(&self) -> bool
        ensures { result ≡ is_empty self.now.out }
    {
        self.out.is_empty()
    }

    /// Whether no target reset waits.
    pub fn is_held_empty(&self) -> bool
        ensures { result ≡ is_empty self.now.held }
    {
        self.held.is_empty()
    }
}

// The answers to the target resets that wait for the handle are put on queue 0, the first processed first. There is room.
fn put_answers(alloc: Global, handle: Handle, held: &VecDeque<HeldReset>, up: &mut Outboxes)
    requires { length held.now.items ≤ up.old.room }
    ensures { up.new.boxes ≡ after_puts 0 (map held_answered (filter (is_held_for handle) held.now.items)) up.old.boxes }
{
    for i in 0..held.len() {
        let reset = held[i];
        if reset.handle == handle {
            up.put(0, held_answered(alloc, reset));
        }
    }
}

// The answer to a target reset that ended no command.
fn held_answered(alloc: Global, held: HeldReset) -> Said
    ensures { result ≡ held_answered held }
{
    let reply = IocReply::Task {
        handle: held.handle,
        task_type: MPI2_SCSITASKMGMT_TASKTYPE_TARGET_RESET,
        status: IOC_STATUS_SUCCESS,
        code: 0,
        count: 0,
    };
    framed(alloc, held.smid, reply)
}
