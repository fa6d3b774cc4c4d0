//! The entries of a trace.
ghost use Rattle.std.specs.Prelude.{◌≡◌, IfOk};

use crate::choice::Choice;
use crate::input::Input;
use crate::item::Item;
use crate::lane::LaneName;
use crate::outcome::{AbortOutcome, Outcome, TargetOutcome};
use crate::refusal::{Refusal, RefusedCall};
use mpi_names::{Address, Handle, Smid, Tag};
use mpt_text::OutOfMemory;
use std::alloc::Global;

/// One entry of a trace.
#[derive(Drop)]
pub enum Entry {
    /// An input came.
    Given(Input),
    /// A chosen step found nothing to do.
    Idle(Choice),
    /// An item was put on a lane.
    Put {
        /// The lane.
        lane: LaneName,
        /// What was put.
        item: Item,
    },
    /// An item was taken from a lane.
    Take {
        /// The lane.
        lane: LaneName,
        /// What was taken.
        item: Item,
    },
    /// The controller binds a handle to a plugged disk.
    Bind {
        /// The handle.
        handle: Handle,
        /// The disk's SAS address.
        address: Address,
        /// The number of the plug among those of the disk.
        plug: u32,
    },
    /// The controller frees a handle.
    Unbind {
        /// The handle.
        handle: Handle,
    },
    /// The controller frees all handles, at a reset.
    UnbindAll,
    /// A task ran at a disk.
    Run {
        /// The disk's SAS address.
        address: Address,
        /// The task's tag.
        tag: Tag,
    },
    /// The host has brought the controller up.
    HostUp,
    /// The host calls a disk ready.
    Ready {
        /// The disk's SAS address.
        address: Address,
        /// Its handle.
        handle: Handle,
    },
    /// The host calls a disk lost.
    Lost {
        /// The disk's SAS address.
        address: Address,
        /// Its handle.
        handle: Handle,
    },
    /// The host accepts a submission.
    Accept {
        /// The submission's number.
        n: u32,
        /// The disk's SAS address.
        address: Address,
        /// The identifier of its request.
        smid: Smid,
    },
    /// The host refuses a submission.
    RefuseSubmit {
        /// The submission's number.
        n: u32,
        /// Why.
        cause: Refusal,
    },
    /// The host or the fabric refuses another call.
    Refuse {
        /// The call.
        call: RefusedCall,
        /// Why.
        cause: Refusal,
    },
    /// The host answers a submission.
    Answer {
        /// The submission's number.
        n: u32,
        /// How it ended.
        outcome: Outcome,
    },
    /// An abort ended.
    AbortEnd {
        /// The number of the submission that was to be aborted.
        n: u32,
        /// How the abort ended.
        outcome: AbortOutcome,
    },
    /// A target reset ended.
    TargetEnd {
        /// The disk's SAS address.
        address: Address,
        /// How the target reset ended.
        outcome: TargetOutcome,
    },
    /// The host's reset of the controller was done.
    ResetDone,
}

impl Entry {
    /// An equal entry, or OutOfMemory.
    pub fn copy(&self, alloc: Global) -> Result<Entry, OutOfMemory>
        ensures { IfOk result (λ entry. entry ≡ self.now) }
    {
        Ok(match self {
            Entry::Given(input) => Entry::Given(input.copy(alloc)?),
            Entry::Idle(choice) => Entry::Idle(*choice),
            Entry::Put { lane, item } => Entry::Put {
                lane: *lane,
                item: item.copy(alloc)?,
            },
            Entry::Take { lane, item } => Entry::Take {
                lane: *lane,
                item: item.copy(alloc)?,
            },
            Entry::Bind {
                handle,
                address,
                plug,
            } => Entry::Bind {
                handle: *handle,
                address: *address,
                plug: *plug,
            },
            Entry::Unbind { handle } => Entry::Unbind { handle: *handle },
            Entry::UnbindAll => Entry::UnbindAll,
            Entry::Run { address, tag } => Entry::Run {
                address: *address,
                tag: *tag,
            },
            Entry::HostUp => Entry::HostUp,
            Entry::Ready { address, handle } => Entry::Ready {
                address: *address,
                handle: *handle,
            },
            Entry::Lost { address, handle } => Entry::Lost {
                address: *address,
                handle: *handle,
            },
            Entry::Accept { n, address, smid } => Entry::Accept {
                n: *n,
                address: *address,
                smid: *smid,
            },
            Entry::RefuseSubmit { n, cause } => Entry::RefuseSubmit {
                n: *n,
                cause: *cause,
            },
            Entry::Refuse { call, cause } => Entry::Refuse {
                call: *call,
                cause: *cause,
            },
            Entry::Answer { n, outcome } => Entry::Answer {
                n: *n,
                outcome: outcome.copy(alloc)?,
            },
            Entry::AbortEnd { n, outcome } => Entry::AbortEnd {
                n: *n,
                outcome: *outcome,
            },
            Entry::TargetEnd { address, outcome } => Entry::TargetEnd {
                address: *address,
                outcome: *outcome,
            },
            Entry::ResetDone => Entry::ResetDone,
        })
    }
}
