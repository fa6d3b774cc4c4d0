//! What the controller puts on its lanes.
ghost use Rattle.std.specs.Prelude.{◌≡◌, ◌<◌, IfOk, IsSome, Some, drop, length, option_copied, slice_get};
ghost use Rattle.mpt_wire.specs.Messages.Fields.{address_descriptor, reply_frame_address, success_descriptor};
ghost use Rattle.mpt_rules.specs.Ioc.Sending.{front_out, front_up_on, needs_frame, out_sent, up_of, up_sent_on};

use crate::ioc::Ioc;
use mpi_names::{
    FRAME_BYTES, MPI2_RPY_DESCRIPT_FLAGS_ADDRESS_REPLY, MPI2_RPY_DESCRIPT_FLAGS_SCSI_IO_SUCCESS,
    REPLY_FRAMES_ADDRESS,
};
use mpt_rules::{OutOfMemory, Said};
use mpt_trace::{Entry, Out, Smid, Up};
use scsi_disk::Bytes;
use std::alloc::Global;

impl Ioc {
    /// A copy of what is put next on the lane of reply queue 0. None exactly where nothing waits for it, or its front
    /// waits for a reply frame.
    pub fn front_up(&self) -> Result<Option<Up>, OutOfMemory>
        ensures { IfOk result (λ up. up ≡ front_up_on self.now.part 0) }
    {
        self.front_up_on(0)
    }

    /// The same for any reply queue. None where there is no such queue.
    pub fn front_up_on(&self, queue: u8) -> Result<Option<Up>, OutOfMemory>
        ensures { IfOk result (λ up. up ≡ front_up_on self.now.part queue) }
    {
        match self.lists.front_up(queue) {
            Some(said) => up_of(self.alloc, said, self.free.front()),
            None => Ok(None),
        }
    }

    /// What is put next on the lane of reply queue 0 was put. There is something, and it doesn't wait for a frame.
    pub fn sent_up(&mut self)
        requires { IsSome (front_up_on self.old.part 0) }
        ensures part { self.new.part ≡ up_sent_on self.old.part 0 }
        ensures told { self.new.told ≡ self.old.told }
    {
        self.sent_up_on(0);
    }

    /// The same for any reply queue.
    pub fn sent_up_on(&mut self, queue: u8)
        requires { IsSome (front_up_on self.old.part queue) }
        ensures part { self.new.part ≡ up_sent_on self.old.part queue }
        ensures told { self.new.told ≡ self.old.told }
    {
        let said = self.lists.pop_up(queue);
        if needs_frame(&said) {
            self.free.take();
        }
    }

    /// What is put next on the lane out, which stays. None exactly where there is nothing.
    pub fn front_out(&self) -> Option<&Out>
        ensures { option_copied result ≡ front_out self.now.part }
    {
        self.lists.front_out()
    }

    /// What was put on the lane out. There is something to be put.
    pub fn sent_out(&mut self) -> Out
        requires { 0 < length self.old.part.out }
        ensures value { front_out self.old.part ≡ Some result }
        ensures part { self.new.part ≡ out_sent self.old.part }
        ensures told { self.new.told ≡ self.old.told }
    {
        self.lists.pop_out()
    }

    /// The next bind or unbind that is told. None exactly where none is left.
    pub fn told(&mut self) -> Option<Entry>
        ensures value { result ≡ slice_get self.old.told 0 }
        ensures rest { self.new.told ≡ drop 1 self.old.told }
        ensures part { self.new.part ≡ self.old.part }
    {
        self.lists.pop_told()
    }
}

// Whether an item takes a reply frame.
fn needs_frame(said: &Option<Said>) -> bool
    ensures { result ≡ needs_frame said.now }
{
    matches!(said, Some(Said::Framed { .. }))
}

// What an item is on the lane, given the first reply frame. Without one a reply that needs a frame waits.
fn up_of(alloc: Global, said: &Said, free: Option<u8>) -> Result<Option<Up>, OutOfMemory>
    ensures { IfOk result (λ up. up ≡ up_of said.now free) }
{
    match said {
        Said::Value(value) => Ok(Some(Up::Value(*value))),
        Said::Success { smid, page, sense } => {
            let descriptor = success_descriptor(*smid);
            Ok(Some(reply_up(alloc, descriptor, None, page, sense)?))
        }
        Said::Framed {
            smid,
            frame,
            page,
            sense,
        } => {
            let Some(free) = free else {
                return Ok(None);
            };
            let descriptor = address_descriptor(*smid, free);
            Ok(Some(reply_up(alloc, descriptor, Some(*frame), page, sense)?))
        }
        Said::Mark { generation } => Ok(Some(Up::Mark {
            generation: *generation,
        })),
        Said::Calm => Ok(Some(Up::Calm)),
    }
}

// A reply with copies of its data.
fn reply_up(
    alloc: Global,
    descriptor: u64,
    frame: Option<[u8; 128]>,
    page: &Bytes,
    sense: &Bytes,
) -> Result<Up, OutOfMemory>
    ensures { IfOk result (λ up. up ≡ Up.Reply descriptor frame page.now sense.now) }
{
    let page = page.copy(alloc)?;
    let sense = sense.copy(alloc)?;
    Ok(Up::Reply {
        descriptor,
        frame,
        page,
        sense,
    })
}

// The descriptor of a reply without a frame, whose TaskTag is its identifier.
fn success_descriptor(smid: Smid) -> u64
    ensures { result ≡ success_descriptor smid }
{
    u64::from(MPI2_RPY_DESCRIPT_FLAGS_SCSI_IO_SUCCESS)
        + 0x1_0000 * u64::from(smid)
        + 0x1_0000_0000 * u64::from(smid)
}

// The descriptor of a reply with this frame.
fn address_descriptor(smid: Smid, frame: u8) -> u64
    ensures { result ≡ address_descriptor smid (reply_frame_address frame) }
{
    u64::from(MPI2_RPY_DESCRIPT_FLAGS_ADDRESS_REPLY)
        + 0x1_0000 * u64::from(smid)
        + 0x1_0000_0000 * (u64::from(REPLY_FRAMES_ADDRESS) + FRAME_BYTES as u64 * u64::from(frame))
}
