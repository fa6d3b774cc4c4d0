//! What the lanes carry.
ghost use Rattle.std.specs.Prelude.{◌≡◌, IfOk};

use crate::input::Input;
use crate::outcome::{Outcome, copy_result};
use crate::refusal::Refusal;
use mpi_names::{Address, Smid, Tag};
use mpt_text::OutOfMemory;
use scsi_disk::{Bytes, Command, ScsiResult};
use std::alloc::Global;

/// What the host puts for the controller.
#[derive(Drop)]
pub enum Down {
    /// A write to a register (mpi2.h, MPI2_SYSTEM_INTERFACE_REGS).
    Write {
        /// The register's offset in bytes.
        reg: u16,
        /// What is written.
        value: u32,
    },
    /// A read of a register, which an `Up::Value` answers.
    Read {
        /// The register's offset in bytes.
        reg: u16,
    },
    /// A request: its descriptor is posted.
    Post {
        /// The little-endian number of the request descriptor's 8 bytes (mpi2.h,
        /// MPI2_REQUEST_DESCRIPTOR_UNION).
        descriptor: u64,
        /// The request frame.
        frame: [u8; 128],
        /// The data that the host holds ready for the request.
        payload: Bytes,
    },
    /// A reply frame is given back to the controller.
    Return {
        /// The frame's address.
        address: u32,
        /// The value of ReplyFreeHostIndex after it.
        index: u16,
    },
    /// The last item of a threaded session.
    Stop,
}

/// What the controller puts for the host.
#[derive(Drop)]
pub enum Up {
    /// The value of the register whose read is outstanding.
    Value(u32),
    /// A reply: its descriptor is posted.
    Reply {
        /// The little-endian number of the reply descriptor's 8 bytes (mpi2.h,
        /// MPI2_REPLY_DESCRIPTORS_UNION).
        descriptor: u64,
        /// The reply frame, where the descriptor names one.
        frame: Option<[u8; 128]>,
        /// The data that the controller moved: what a command read, or a configuration page.
        page: Bytes,
        /// The sense data that the controller moved.
        sense: Bytes,
    },
    /// The last reply before a reset stands before this, on the lane of a reply post queue above 0.
    Mark {
        /// The controller's generation after the reset.
        generation: u32,
    },
    /// The controller is quiet, in a threaded session.
    Calm,
}

/// What the controller puts for the fabric.
#[derive(Drop)]
pub enum Out {
    /// A command for the disk of an address.
    Task {
        /// The command's tag.
        tag: Tag,
        /// The disk's SAS address.
        address: Address,
        /// The command.
        command: Command,
    },
    /// A task is to be aborted.
    Abort {
        /// The request that asks it.
        smid: Smid,
        /// The tag of the task.
        task: Tag,
    },
    /// All tasks of a disk are to be dropped.
    TargetReset {
        /// The request that asks it.
        smid: Smid,
        /// The disk's SAS address.
        address: Address,
    },
    /// The fabric is to name the disks that are plugged.
    Discover,
    /// The controller was reset, and links again.
    Link {
        /// The controller's generation.
        generation: u32,
    },
    /// The last item of a threaded session.
    Stop,
}

/// What the fabric puts for the controller.
#[derive(Drop)]
pub enum Back {
    /// A task ran.
    Result {
        /// The task's tag.
        tag: Tag,
        /// What the disk answered.
        result: ScsiResult,
    },
    /// A task found no disk at its address.
    Gone {
        /// The task's tag.
        tag: Tag,
    },
    /// A task was dropped before it ran.
    Terminated {
        /// The task's tag.
        tag: Tag,
    },
    /// An abort was done.
    Aborted {
        /// The request that asked it.
        smid: Smid,
        /// Whether the task was still there.
        found: bool,
    },
    /// A target reset was done.
    Cleared {
        /// The request that asked it.
        smid: Smid,
        /// How many tasks were dropped.
        count: u32,
    },
    /// A disk was plugged.
    Plugged {
        /// The disk's SAS address.
        address: Address,
        /// The number of this plug among those of the disk.
        plug: u32,
        /// The expander's number.
        expander: u8,
        /// The phy of the expander.
        phy: u8,
    },
    /// A disk was unplugged.
    Unplugged {
        /// The disk's SAS address.
        address: Address,
        /// The number of the plug that ended.
        plug: u32,
        /// The expander's number.
        expander: u8,
        /// The phy of the expander.
        phy: u8,
    },
    /// All disks that are plugged were named.
    Discovered,
    /// The fabric has taken the link of a generation.
    Linked {
        /// The controller's generation.
        generation: u32,
    },
    /// The fabric is quiet, in a threaded session.
    Calm,
}

/// What a submitter puts for the host in a threaded session.
#[derive(Drop)]
pub enum Ask {
    /// A line of the submitter.
    Line(Input),
    /// There are no more lines.
    Bye,
}

/// What the host puts for a submitter in a threaded session.
#[derive(Drop)]
pub enum Tell {
    /// A submission was answered.
    Answer {
        /// The submission's number.
        n: u32,
        /// How it ended.
        outcome: Outcome,
    },
    /// A submission was refused.
    RefuseSubmit {
        /// The submission's number.
        n: u32,
        /// Why.
        cause: Refusal,
    },
}

/// What a lane carries.
#[derive(Drop)]
pub enum Item {
    /// An item of the lane down.
    Down(Down),
    /// An item of a lane up.
    Up(Up),
    /// An item of the lane out.
    Out(Out),
    /// An item of the lane back.
    Back(Back),
    /// An item of a lane ask.
    Ask(Ask),
    /// An item of a lane tell.
    Tell(Tell),
}

impl Down {
    /// An equal item, or OutOfMemory.
    pub fn copy(&self, alloc: Global) -> Result<Down, OutOfMemory>
        ensures { IfOk result (λ item. item ≡ self.now) }
    {
        match self {
            Down::Write { reg, value } => Ok(Down::Write {
                reg: *reg,
                value: *value,
            }),
            Down::Read { reg } => Ok(Down::Read { reg: *reg }),
            Down::Post {
                descriptor,
                frame,
                payload,
            } => {
                let payload = payload.copy(alloc)?;
                Ok(Down::Post {
                    descriptor: *descriptor,
                    frame: *frame,
                    payload,
                })
            }
            Down::Return { address, index } => Ok(Down::Return {
                address: *address,
                index: *index,
            }),
            Down::Stop => Ok(Down::Stop),
        }
    }
}

impl Up {
    /// An equal item, or OutOfMemory.
    pub fn copy(&self, alloc: Global) -> Result<Up, OutOfMemory>
        ensures { IfOk result (λ item. item ≡ self.now) }
    {
        match self {
            Up::Value(value) => Ok(Up::Value(*value)),
            Up::Reply {
                descriptor,
                frame,
                page,
                sense,
            } => {
                let page = page.copy(alloc)?;
                let sense = sense.copy(alloc)?;
                Ok(Up::Reply {
                    descriptor: *descriptor,
                    frame: *frame,
                    page,
                    sense,
                })
            }
            Up::Mark { generation } => Ok(Up::Mark {
                generation: *generation,
            }),
            Up::Calm => Ok(Up::Calm),
        }
    }
}

impl Out {
    /// An equal item, or OutOfMemory.
    pub fn copy(&self, alloc: Global) -> Result<Out, OutOfMemory>
        ensures { IfOk result (λ item. item ≡ self.now) }
    {
        match self {
            Out::Task {
                tag,
                address,
                command,
            } => {
                let command = command.copy(alloc)?;
                Ok(Out::Task {
                    tag: *tag,
                    address: *address,
                    command,
                })
            }
            Out::Abort { smid, task } => Ok(Out::Abort {
                smid: *smid,
                task: *task,
            }),
            Out::TargetReset { smid, address } => Ok(Out::TargetReset {
                smid: *smid,
                address: *address,
            }),
            Out::Discover => Ok(Out::Discover),
            Out::Link { generation } => Ok(Out::Link {
                generation: *generation,
            }),
            Out::Stop => Ok(Out::Stop),
        }
    }
}

impl Back {
    /// An equal item, or OutOfMemory.
    pub fn copy(&self, alloc: Global) -> Result<Back, OutOfMemory>
        ensures { IfOk result (λ item. item ≡ self.now) }
    {
        match self {
            Back::Result { tag, result } => {
                let result = copy_result(result, alloc)?;
                Ok(Back::Result { tag: *tag, result })
            }
            Back::Gone { tag } => Ok(Back::Gone { tag: *tag }),
            Back::Terminated { tag } => Ok(Back::Terminated { tag: *tag }),
            Back::Aborted { smid, found } => Ok(Back::Aborted {
                smid: *smid,
                found: *found,
            }),
            Back::Cleared { smid, count } => Ok(Back::Cleared {
                smid: *smid,
                count: *count,
            }),
            Back::Plugged {
                address,
                plug,
                expander,
                phy,
            } => Ok(Back::Plugged {
                address: *address,
                plug: *plug,
                expander: *expander,
                phy: *phy,
            }),
            Back::Unplugged {
                address,
                plug,
                expander,
                phy,
            } => Ok(Back::Unplugged {
                address: *address,
                plug: *plug,
                expander: *expander,
                phy: *phy,
            }),
            Back::Discovered => Ok(Back::Discovered),
            Back::Linked { generation } => Ok(Back::Linked {
                generation: *generation,
            }),
            Back::Calm => Ok(Back::Calm),
        }
    }
}

impl Ask {
    /// An equal item. It takes no memory, so it always answers Ok.
    pub fn copy(&self, alloc: Global) -> Result<Ask, OutOfMemory>
        ensures { result ≡ Ok self.now }
    {
        match self {
            Ask::Line(line) => Ok(Ask::Line(line.copy(alloc)?)),
            Ask::Bye => Ok(Ask::Bye),
        }
    }
}

impl Tell {
    /// An equal item, or OutOfMemory.
    pub fn copy(&self, alloc: Global) -> Result<Tell, OutOfMemory>
        ensures { IfOk result (λ item. item ≡ self.now) }
    {
        match self {
            Tell::Answer { n, outcome } => {
                let outcome = outcome.copy(alloc)?;
                Ok(Tell::Answer { n: *n, outcome })
            }
            Tell::RefuseSubmit { n, cause } => Ok(Tell::RefuseSubmit {
                n: *n,
                cause: *cause,
            }),
        }
    }
}

impl Item {
    /// An equal item, or OutOfMemory.
    pub fn copy(&self, alloc: Global) -> Result<Item, OutOfMemory>
        ensures { IfOk result (λ item. item ≡ self.now) }
    {
        match self {
            Item::Down(item) => Ok(Item::Down(item.copy(alloc)?)),
            Item::Up(item) => Ok(Item::Up(item.copy(alloc)?)),
            Item::Out(item) => Ok(Item::Out(item.copy(alloc)?)),
            Item::Back(item) => Ok(Item::Back(item.copy(alloc)?)),
            Item::Ask(item) => Ok(Item::Ask(item.copy(alloc)?)),
            Item::Tell(item) => Ok(Item::Tell(item.copy(alloc)?)),
        }
    }
}
