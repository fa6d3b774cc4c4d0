//! The lists of a host that grow.
ghost use Rattle.std.specs.Prelude.{◌≡◌, ◌≤◌, ◌<◌, ◌-◌, ◌+◌, ◌^◌, ◌++◌, ◌∷◌, ◌||◌, [], OnOk, OnErr, drop, length, nat_lt, not, option_copied, option_to_list, slice_get, true, IfSome};
ghost use Rattle.std.specs.List.{filter, list_any};
ghost use Rattle.mpt_messages.specs.HostFrames.{IsAsk};
ghost use Rattle.mpt_rules.specs.Host.Posts.{frame_asked};
ghost use Rattle.mpt_rules.specs.Host.Removal.{is_page_of, without_page};
ghost use Rattle.mpt_rules.specs.Host.Resets.{is_no_post};
ghost use Rattle.mpt_rules.specs.World.Places.{is_posted_as, is_return_of};
ghost use Rattle.mpt_rules.specs.World.Weight.{down_items, is_read};
ghost use Rattle.host_tables.specs.Lists.{Lists};
ghost use Rattle.host_tables.specs.Slots.{is_internal};

use crate::reply_frames::address_of;
use mpt_messages::{HostAsk, host_frame};
use mpt_rules::{OutOfMemory, Request};
use mpt_trace::{Down, Entry, Handle, Smid};
use scsi_disk::Bytes;
use std::alloc::Global;
use std::collections::VecDeque;
use std::marker::Model;
use std::mem;

/// What a host puts on the lane down and what it tells, and what waits for an identifier: handles
/// whose target reset it is, and requests of the internal class. Where `make_room` was called before,
/// items come in without memory.
#[derive(Drop)]
pub struct HostLists {
    down: VecDeque<Down>,
    told: VecDeque<Entry>,
    high: VecDeque<Handle>,
    internal: VecDeque<Request>,
    room: usize,
}

impl Model for HostLists {
    ghost use Rattle.std.specs.Prelude.{◌≡◌, true};
    ghost use Rattle.std.specs.List.{list_all};
    ghost use Rattle.host_tables.specs.Lists.{HasRoom, Lists};
    ghost use Rattle.host_tables.specs.Slots.{is_internal};

    ghost Value = { Lists };

    ghost view = { λ l. record { down = l.down.items; told = l.told.items; high = l.high.items; internal = l.internal.items; room = l.room } };

    ghost invariant = { λ l. HasRoom l.down l.room × HasRoom l.told l.room × HasRoom l.high l.room × HasRoom l.internal l.room × (list_all is_internal l.internal.items ≡ true) };
}

impl HostLists {
    /// Four empty lists.
    pub fn new(alloc: Global) -> HostLists
        ensures { result ≡ record { down = []; told = []; high = []; internal = []; room = 0 } }
    {
        HostLists {
            down: VecDeque::new(alloc),
            told: VecDeque::new(alloc),
            high: VecDeque::new(alloc),
            internal: VecDeque::new(alloc),
            room: 0,
        }
    }

    /// Makes room for so many items in each list. It takes no memory where there is as much. Where
    /// memory is wanting no list changes.
    pub fn make_room(&mut self, count: usize) -> Result<(), OutOfMemory>
        ensures ok { OnOk result (count ≤ self.new.room) }
        ensures full { OnErr result (self.old.room < count) }
        ensures kept { self.old.room ≤ self.new.room }
        ensures down { self.new.down ≡ self.old.down }
        ensures told { self.new.told ≡ self.old.told }
        ensures high { self.new.high ≡ self.old.high }
        ensures internal { self.new.internal ≡ self.old.internal }
    {
        if count <= self.room {
            return Ok(());
        }
        self.down.try_reserve(count)?;
        self.told.try_reserve(count)?;
        self.high.try_reserve(count)?;
        self.internal.try_reserve(count)?;
        self.room = count;
        Ok(())
    }

    /// An item is to be put on the lane down, after the others.
    pub fn push_down(&mut self, item: Down)
        requires { 1 ≤ self.old.room }
        ensures { self.new ≡ record self.old { down = self.old.down ++ item ∷ []; room = self.old.room - 1 } }
    {
        self.room -= 1;
        self.down.push_back_reserved(item);
    }

    /// A post is to be put on the lane down, after the others. The frame of what is asked is made here.
    pub fn push_post(&mut self, descriptor: u64, ask: &HostAsk, payload: Bytes)
        requires room { 1 ≤ self.old.room }
        requires known { IsAsk ask.now }
        ensures { self.new ≡ record self.old { down = self.old.down ++ Down.Post descriptor (frame_asked ask.now) payload ∷ []; room = self.old.room - 1 } }
    {
        let mut frame = [0; 128];
        host_frame(ask, &mut frame);
        self.push_down(Down::Post {
            descriptor,
            frame,
            payload,
        });
    }

    /// An entry is told, after the others.
    pub fn push_told(&mut self, entry: Entry)
        requires { 1 ≤ self.old.room }
        ensures { self.new ≡ record self.old { told = self.old.told ++ entry ∷ []; room = self.old.room - 1 } }
    {
        self.room -= 1;
        self.told.push_back_reserved(entry);
    }

    /// The target reset of a handle waits, after the others.
    pub fn push_high(&mut self, handle: Handle)
        requires { 1 ≤ self.old.room }
        ensures { self.new ≡ record self.old { high = self.old.high ++ handle ∷ []; room = self.old.room - 1 } }
    {
        self.room -= 1;
        self.high.push_back_reserved(handle);
    }

    /// A request of the internal class waits, after the others.
    pub fn push_internal(&mut self, request: Request)
        requires room { 1 ≤ self.old.room }
        requires class { is_internal request ≡ true }
        ensures { self.new ≡ record self.old { internal = self.old.internal ++ request ∷ []; room = self.old.room - 1 } }
    {
        self.room -= 1;
        self.internal.push_back_reserved(request);
    }

    /// What is put on the lane down next. None exactly where there is nothing.
    pub fn front_down(&self) -> Option<&Down>
        ensures { option_copied result ≡ slice_get self.now.down 0 }
    {
        self.down.front()
    }

    /// Takes what is put on the lane down next. There is something.
    pub fn pop_down(&mut self) -> Down
        requires { 0 < length self.old.down }
        ensures first { self.old.down ≡ result ∷ self.new.down }
        ensures rest { self.new ≡ record self.old { down = drop 1 self.old.down } }
    {
        self.down.pop_front().unwrap()
    }

    /// Takes the next told entry. None exactly where there is none.
    pub fn pop_told(&mut self) -> Option<Entry>
        ensures first { self.old.told ≡ option_to_list result ++ self.new.told }
        ensures rest { self.new ≡ record self.old { told = drop 1 self.old.told } }
    {
        self.told.pop_front()
    }

    /// Takes all told entries, without memory.
    pub fn take_told(&mut self, alloc: Global) -> VecDeque<Entry>
        ensures entries { result.items ≡ self.old.told }
        ensures rest { self.new ≡ record self.old { told = []; room = 0 } }
    {
        self.room = 0;
        mem::replace(&mut self.told, VecDeque::new(alloc))
    }

    /// Takes the handle whose target reset waits first. None exactly where there is none.
    pub fn pop_high(&mut self) -> Option<Handle>
        ensures first { self.old.high ≡ option_to_list result ++ self.new.high }
        ensures rest { self.new ≡ record self.old { high = drop 1 self.old.high } }
    {
        self.high.pop_front()
    }

    /// Takes the request of the internal class that waits first. None exactly where there is none.
    pub fn pop_internal(&mut self) -> Option<Request>
        ensures first { self.old.internal ≡ option_to_list result ++ self.new.internal }
        ensures class { IfSome result (λ r. is_internal r ≡ true) }
        ensures rest { self.new ≡ record self.old { internal = drop 1 self.old.internal } }
    {
        self.internal.pop_front()
    }

    /// The page read of a handle doesn't wait any more.
    pub fn drop_page(&mut self, handle: Handle)
        ensures { self.new ≡ record self.old { internal = without_page handle self.old.internal } }
    {
        self.internal
            .retain(|request| !reads_page_of(request, handle));
    }

    /// The posts leave what is put, and nothing waits for an identifier any more.
    pub fn drop_posts(&mut self)
        ensures { self.new ≡ record self.old { down = filter is_no_post self.old.down; high = []; internal = [] } }
    {
        self.down.retain(|item| !is_post(item));
        self.high.clear();
        self.internal.clear();
    }

    /// Whether a post under this identifier is to be put.
    pub fn has_post(&self, smid: Smid) -> bool
        ensures { result ≡ list_any (is_posted_as smid) self.now.down }
    {
        self.down.iter().any(|item| is_post_of(item, smid))
    }

    /// Whether a return of this reply frame is to be put.
    pub fn has_return(&self, frame: u8) -> bool
        ensures { result ≡ list_any (is_return_of frame) self.now.down }
    {
        self.down.iter().any(|item| is_return_of(item, frame))
    }

    /// How many items are to be put, reads not counted.
    pub fn down_count(&self) -> usize
        ensures { result ≡ down_items self.now.down }
    {
        self.down.iter().filter(|item| !is_read(item)).count()
    }

    /// How many posts wait for an identifier.
    pub fn waiting_count(&self) -> u128
        ensures value { result ≡ length self.now.high + length self.now.internal }
        ensures most { result ≤ 2 ^ 65 }
    {
        self.high.len() as u128 + self.internal.len() as u128
    }

    /// Whether something waits for an identifier.
    pub fn has_waiting(&self) -> bool
        ensures { result ≡ (nat_lt 0 (length self.now.high) || nat_lt 0 (length self.now.internal)) }
    {
        !self.high.is_empty() || !self.internal.is_empty()
    }
}

// Whether an item posts a request under this identifier.
fn is_post_of(item: &Down, smid: Smid) -> bool
    ensures { result ≡ is_posted_as smid item.now }
{
    match item {
        Down::Post { descriptor, .. } => *descriptor / 0x1_0000 % 0x1_0000 == u64::from(smid),
        _ => false,
    }
}

// Whether an item returns this reply frame.
fn is_return_of(item: &Down, frame: u8) -> bool
    ensures { result ≡ is_return_of frame item.now }
{
    match item {
        Down::Return { address, .. } => *address == address_of(frame),
        _ => false,
    }
}

// Whether an item reads a register.
fn is_read(item: &Down) -> bool
    ensures { result ≡ is_read item.now }
{
    matches!(item, Down::Read { .. })
}

// Whether an item is a post.
fn is_post(item: &Down) -> bool
    ensures { result ≡ not (is_no_post item.now) }
{
    match item {
        Down::Post { .. } => true,
        Down::Write { .. } | Down::Read { .. } | Down::Return { .. } | Down::Stop => false,
    }
}

// Whether a request reads the page of a handle.
fn reads_page_of(request: &Request, handle: Handle) -> bool
    ensures { result ≡ is_page_of handle request.now }
{
    match *request {
        Request::Page { handle: read } => read == handle,
        Request::Command { .. }
        | Request::Abort { .. }
        | Request::TargetReset { .. }
        | Request::Leave { .. }
        | Request::Remove { .. }
        | Request::Ack { .. }
        | Request::Notification
        | Request::PortEnable => false,
    }
}
