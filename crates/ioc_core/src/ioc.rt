//! The controller.
ghost use Rattle.std.specs.Prelude.{◌≡◌, ◌≤◌, [], IfOk, OnOk, vec_len};
ghost use Rattle.mpt_rules.specs.Ioc.Parts.{new_ioc};

use crate::disks::Disks;
use crate::free_frames::FreeFrames;
use crate::lists::IocLists;
use ioc_replies::{Contexts, MAX_QUEUES};
use ioc_tables::{PostQueues, Requests};
use mpi_doorbell::DoorIoc;
use mpt_rules::OutOfMemory;
use std::alloc::Global;
use std::marker::Model;

/// The context of the first event.
pub(crate) const FIRST_CONTEXT: u32 = 1;

/// A controller.
#[derive(Drop)]
pub struct Ioc {
    pub(crate) alloc: Global,
    pub(crate) phys: Vec<u8>,
    pub(crate) door: DoorIoc,
    pub(crate) generation: u32,
    pub(crate) queues: PostQueues,
    pub(crate) lists: IocLists,
    pub(crate) disks: Disks,
    pub(crate) free: FreeFrames,
    pub(crate) unacked: Contexts,
    pub(crate) context: u32,
    pub(crate) requests: Requests,
    pub(crate) enabled: bool,
    pub(crate) through: bool,
    pub(crate) vectors: u8,
}

impl Model for Ioc {
    ghost use Rattle.std.specs.Coded.{codes};
    ghost use Rattle.std.specs.FinSet as set;
    ghost use Rattle.ioc_core.specs.Seen.{HasFewExpanders, IocSeen};

    ghost Value = { IocSeen };

    ghost coded = { Prim.hlevel (codes, set.code) };

    ghost view = { λ i. record {
      part = record {
        phys = i.phys.items;
        door = i.door;
        generation = i.generation;
        high = i.queues.high;
        normal = i.queues.normal;
        up = i.lists.up;
        out = i.lists.out;
        bindings = i.disks.bindings;
        waiting = i.disks.waiting;
        ring = i.free;
        unacked = i.unacked;
        context = i.context;
        requests = i.requests;
        held = i.lists.held;
        enabled = i.enabled;
        through = i.through;
        vectors = i.vectors;
      };
      told = i.lists.told;
      room = i.lists.room;
    } };

    ghost invariant = { λ i. HasFewExpanders i.phys.items };
}

impl Ioc {
    /// A controller in the state READY with one reply queue and an expander with so many phys for each number, or
    /// OutOfMemory. There are 16 expanders at most.
    pub fn new(alloc: Global, phys: Vec<u8>) -> Result<Ioc, OutOfMemory>
        requires { vec_len phys ≤ 16 }
        ensures { IfOk result (λ ioc. ioc ≡ record { part = new_ioc phys.items 1; told = []; room = 0 }) }
    {
        Ioc::with_queues(alloc, phys, 1)
    }

    /// The same with so many reply queues, from 1 to 8.
    pub fn with_queues(alloc: Global, phys: Vec<u8>, queues: u8) -> Result<Ioc, OutOfMemory>
        requires expanders { vec_len phys ≤ 16 }
        requires least { 1 ≤ queues }
        requires most { queues ≤ MAX_QUEUES }
        ensures { IfOk result (λ ioc. ioc ≡ record { part = new_ioc phys.items queues; told = []; room = 0 }) }
    {
        let posts = PostQueues::new(alloc)?;
        let lists = IocLists::new(alloc, queues)?;
        let disks = Disks::new(alloc)?;
        let free = FreeFrames::new(alloc)?;
        let requests = Requests::new(alloc)?;
        Ok(Ioc {
            alloc,
            phys,
            door: DoorIoc::new(),
            generation: 0,
            queues: posts,
            lists,
            disks,
            free,
            unacked: Contexts::new(alloc),
            context: FIRST_CONTEXT,
            requests,
            enabled: false,
            through: false,
            vectors: 0,
        })
    }

    /// Makes room for so many items in each list that grows. Where memory is wanting nothing changes.
    pub(crate) fn make_room(&mut self, count: usize) -> Result<(), OutOfMemory>
        ensures ok { OnOk result (count ≤ self.new.room) }
        ensures part { self.new.part ≡ self.old.part }
        ensures told { self.new.told ≡ self.old.told }
    {
        self.lists.make_room(count)
    }
}
