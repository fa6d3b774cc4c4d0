//! The host at the doorbell: how its machine goes on, and what the host begins there.
ghost use Rattle.std.specs.Prelude.{◌≡◌, ◌≤◌, ◌+◌, ◌&&◌, ◌++◌, ◌∷◌, [], Some, None, IsTrue, length, not};
ghost use Rattle.std.specs.List.{list_any};
ghost use Rattle.mpi_doorbell.specs.HostSteps.{Expects, ExpectsAfter};
ghost use Rattle.mpi_doorbell.specs.Sizes.{IsDoneWithin};
ghost use Rattle.mpt_messages.specs.FrameBytes.{message_bytes};
ghost use Rattle.mpt_messages.specs.HostFrames.{IsAsk, host_message};
ghost use Rattle.mpt_rules.specs.Host.Doorbell.{begins, begins_facts, begins_handshake, begins_init, begins_port_facts, next_turn, puts_turn};
ghost use Rattle.mpt_wire.specs.Machine.Causes.{is_resetting};

use super::Host;
use host_tables::take_turn;
use mpi_doorbell::{DoorHost, DoorStep};
use mpt_messages::{HostAsk, host_frame};
use mpt_rules::Stage;
use mpt_trace::{Down, HostState};

impl Host {
    // The machine's turn with the value that it waits for, or at its beginning: its writes go into the
    // outbox, and then it reads, or has ended with the step that is answered.
    pub(crate) fn turn(&mut self, mut door: DoorHost, value: Option<u32>) -> DoorStep
        requires expected { Expects door.stage value }
        requires room { 9 ≤ self.old.room }
        ensures host { self.new.host ≡ puts_turn self.old.host (next_turn door value) }
        ensures step { result ≡ (next_turn door value).step }
        ensures size { IsDoneWithin result }
        ensures told { self.new.told ≡ self.old.told }
        ensures room { self.old.room ≤ self.new.room + 9 }
        ensures numbers { self.new.has_number_room ≡ self.old.has_number_room }
        ensures aborts { self.new.has_abort_room ≡ self.old.has_abort_room }
    {
        let turn = take_turn(&mut door, value, &mut self.lists);
        if turn.begins_reset && matches!(self.mode, HostState::Resetting) {
            self.returning = false;
        }
        if let DoorStep::Read { reg } = turn.step {
            self.lists.push_down(Down::Read { reg });
            self.machine.set(door);
            self.reading = true;
        } else {
            self.machine.clear();
            self.stage = Stage::Idle;
        }
        turn.step
    }

    // A machine begins, for this.
    pub(crate) fn begin(&mut self, stage: Stage, door: DoorHost)
        requires expected { Expects door.stage None }
        requires room { 9 ≤ self.old.room }
        ensures host { self.new.host ≡ begins self.old.host stage door }
        ensures told { self.new.told ≡ self.old.told }
        ensures room { self.old.room ≤ self.new.room + 9 }
        ensures numbers { self.new.has_number_room ≡ self.old.has_number_room }
        ensures aborts { self.new.has_abort_room ≡ self.old.has_abort_room }
    {
        self.stage = stage;
        self.turn(door, None);
    }

    // A handshake begins with the bytes of what the host asks.
    pub(crate) fn begin_handshake(&mut self, stage: Stage, ask: &HostAsk)
        requires known { IsAsk ask.now }
        requires room { 9 ≤ self.old.room }
        ensures host { self.new.host ≡ begins_handshake self.old.host stage ask.now }
        ensures told { self.new.told ≡ self.old.told }
        ensures room { self.old.room ≤ self.new.room + 9 }
        ensures numbers { self.new.has_number_room ≡ self.old.has_number_room }
        ensures aborts { self.new.has_abort_room ≡ self.old.has_abort_room }
    {
        let mut frame = [0; 128];
        let count = host_frame(ask, &mut frame);
        self.begin(stage, DoorHost::handshake(&frame[..count]));
    }

    // IOC Facts are asked.
    pub(crate) fn begin_facts(&mut self)
        requires { 9 ≤ self.old.room }
        ensures host { self.new.host ≡ begins_facts self.old.host }
        ensures told { self.new.told ≡ self.old.told }
        ensures room { self.old.room ≤ self.new.room + 9 }
        ensures numbers { self.new.has_number_room ≡ self.old.has_number_room }
        ensures aborts { self.new.has_abort_room ≡ self.old.has_abort_room }
    {
        self.begin_handshake(Stage::Facts, &HostAsk::Facts);
    }

    // Port Facts are asked.
    pub(crate) fn begin_port_facts(&mut self)
        requires { 9 ≤ self.old.room }
        ensures host { self.new.host ≡ begins_port_facts self.old.host }
        ensures told { self.new.told ≡ self.old.told }
        ensures room { self.old.room ≤ self.new.room + 9 }
        ensures numbers { self.new.has_number_room ≡ self.old.has_number_room }
        ensures aborts { self.new.has_abort_room ≡ self.old.has_abort_room }
    {
        self.begin_handshake(Stage::PortFacts, &HostAsk::PortFacts);
    }

    // IOC Init is asked, with as many reply post queues as the host has.
    pub(crate) fn begin_init(&mut self)
        requires { 9 ≤ self.old.room }
        ensures host { self.new.host ≡ begins_init self.old.host }
        ensures told { self.new.told ≡ self.old.told }
        ensures room { self.old.room ≤ self.new.room + 9 }
        ensures numbers { self.new.has_number_room ≡ self.old.has_number_room }
        ensures aborts { self.new.has_abort_room ≡ self.old.has_abort_room }
    {
        let queues = self.rings.count();
        self.begin_handshake(Stage::Init, &HostAsk::Init { queues });
    }
}
