//! The host.
ghost use Rattle.std.specs.Prelude.{◌≡◌, ◌≤◌, ◌<◌, ◌+◌, ◌++◌, ◌∷◌, [], IfOk, OnErr, OnOk, false, true};
ghost use Rattle.mpt_rules.specs.Host.Parts.{new_host};

mod asking;
mod doorbell;
mod handles;
mod inputs;
mod posts;
mod queries;
mod replies;
mod resets;
mod returns;
mod strange;
mod taking;
mod values;

use host_tables::{
    HandlePhases, HostLists, Identifiers, Machine, NumberMap, NumberSet, OpenCommand, ReplyFrames,
    ReplyRings,
};
use mpt_rules::{OutOfMemory, Stage};
use mpt_trace::{Entry, HostState, Smid};
use std::alloc::Global;
use std::marker::Model;

/// The host. A contract sees it as the record of its rules, with what it told and how much it can
/// take in without memory.
#[derive(Drop)]
pub struct Host {
    alloc: Global,
    mode: HostState,
    lists: HostLists,
    pool: Identifiers,
    cmds: NumberMap<OpenCommand>,
    aborts: NumberMap<Smid>,
    accepted: NumberSet,
    phases: HandlePhases,
    frames: ReplyFrames,
    machine: Machine,
    stage: Stage,
    reading: bool,
    asked: u32,
    returning: bool,
    door_ready: bool,
    rings: ReplyRings,
}

impl Model for Host {
    ghost use Rattle.std.specs.Prelude.{◌&&◌};
    ghost use Rattle.std.specs.Coded.{codes};
    ghost use Rattle.std.specs.FinMap as map;
    ghost use Rattle.host_core.specs.Driver.{Driver};

    ghost Value = { Driver };

    ghost coded = { Prim.hlevel (codes, map.code) };

    ghost view = { λ h. record {
      host = record {
        mode = h.mode;
        out = h.lists.down;
        pool = h.pool;
        cmds = h.cmds.map;
        aborts = h.aborts.map;
        accepted = h.accepted.set;
        phases = h.phases;
        wait_high = h.lists.high;
        wait_internal = h.lists.internal;
        frames = h.frames.frames;
        machine = h.machine;
        stage = h.stage;
        reading = h.reading;
        asked = h.asked;
        returning = h.returning;
        door_ready = h.door_ready;
        marks = h.rings.marks;
        returned = h.frames.returned;
        indices = h.rings.indices;
      };
      told = h.lists.told;
      room = h.lists.room;
      has_number_room = h.cmds.has_room && h.accepted.has_room;
      has_abort_room = h.aborts.has_room;
    } };
}

impl Host {
    /// A host that is off, with one reply queue; or OutOfMemory.
    pub fn new(alloc: Global) -> Result<Host, OutOfMemory>
        ensures host { IfOk result (λ made. made.host ≡ new_host 1) }
        ensures told { IfOk result (λ made. made.told ≡ []) }
    {
        Host::with_queues(alloc, 1)
    }

    /// A host that is off, with so many reply queues, from 1 to 8; or OutOfMemory.
    pub fn with_queues(alloc: Global, queues: u8) -> Result<Host, OutOfMemory>
        requires { (1 ≤ queues) × (queues ≤ 8) }
        ensures host { IfOk result (λ made. made.host ≡ new_host queues) }
        ensures told { IfOk result (λ made. made.told ≡ []) }
    {
        let pool = Identifiers::new(alloc)?;
        let rings = ReplyRings::new(alloc, queues)?;
        Ok(Host {
            alloc,
            mode: HostState::Off,
            lists: HostLists::new(alloc),
            pool,
            cmds: NumberMap::new(alloc),
            aborts: NumberMap::new(alloc),
            accepted: NumberSet::new(alloc),
            phases: HandlePhases::new(),
            frames: ReplyFrames::new(),
            machine: Machine::none(),
            stage: Stage::Idle,
            reading: false,
            asked: 0,
            returning: true,
            door_ready: false,
            rings,
        })
    }

    // Room for so many items and entries.
    pub(crate) fn make_room(&mut self, count: usize) -> Result<(), OutOfMemory>
        ensures ok { OnOk result (count ≤ self.new.room) }
        ensures full { OnErr result (self.old.room < count) }
        ensures kept { self.old.room ≤ self.new.room }
        ensures host { self.new.host ≡ self.old.host }
        ensures told { self.new.told ≡ self.old.told }
        ensures numbers { self.new.has_number_room ≡ self.old.has_number_room }
        ensures aborts { self.new.has_abort_room ≡ self.old.has_abort_room }
    {
        self.lists.make_room(count)
    }

    // Room for the number of a submission.
    pub(crate) fn make_number_room(&mut self) -> Result<(), OutOfMemory>
        ensures ok { OnOk result (self.new.has_number_room ≡ true) }
        ensures full { OnErr result (self.old.has_number_room ≡ false) }
        ensures kept { self.old.has_number_room ≡ true → self.new.has_number_room ≡ true }
        ensures host { self.new.host ≡ self.old.host }
        ensures told { self.new.told ≡ self.old.told }
        ensures room { self.new.room ≡ self.old.room }
        ensures aborts { self.new.has_abort_room ≡ self.old.has_abort_room }
    {
        self.cmds.make_room()?;
        self.accepted.make_room()
    }

    // Room for the number of an abort.
    pub(crate) fn make_abort_room(&mut self) -> Result<(), OutOfMemory>
        ensures ok { OnOk result (self.new.has_abort_room ≡ true) }
        ensures host { self.new.host ≡ self.old.host }
        ensures told { self.new.told ≡ self.old.told }
        ensures room { self.new.room ≡ self.old.room }
        ensures numbers { self.new.has_number_room ≡ self.old.has_number_room }
    {
        self.aborts.make_room()
    }

    // An entry is told, after the others.
    pub(crate) fn tell(&mut self, entry: Entry)
        requires { 1 ≤ self.old.room }
        ensures host { self.new.host ≡ self.old.host }
        ensures told { self.new.told ≡ self.old.told ++ entry ∷ [] }
        ensures room { self.old.room ≤ self.new.room + 1 }
        ensures numbers { self.new.has_number_room ≡ self.old.has_number_room }
        ensures aborts { self.new.has_abort_room ≡ self.old.has_abort_room }
    {
        self.lists.push_told(entry);
    }
}
