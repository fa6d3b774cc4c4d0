//! Values that the host has read: how each machine at the doorbell ends, and what follows.
ghost use Rattle.std.specs.Prelude.{◌≡◌, ◌≤◌, ◌+◌, ◌++◌, ◌<◌, slice_index, true};
ghost use Rattle.mpi_doorbell.specs.Sizes.{IsDoneWithin};
ghost use Rattle.mpt_rules.specs.Host.Values.{after_turn, begins_messages, ends_stage, hears_value, looks_to_start, starts_by, state_read};
ghost use Rattle.host_core.specs.Driver.{CanEndReset, CanTellReset};

use super::Host;
use mpi_doorbell::registers::{
    IOC_STATE_FAULT, IOC_STATE_MASK, IOC_STATE_OPERATIONAL, IOC_STATE_READY,
};
use mpi_doorbell::{DoorHost, DoorStep};
use mpt_rules::{Request, Stage};

impl Host {
    // The value of the read that was outstanding: the machine goes on, and where it has ended the next
    // thing begins. Without a machine a reset was asked meanwhile, which begins now.
    pub(crate) fn hear_value(&mut self, value: u32)
        requires { CanEndReset self.old }
        ensures host { self.new.host ≡ (hears_value self.old.host value).part }
        ensures told { self.new.told ≡ self.old.told ++ (hears_value self.old.host value).entries }
        ensures room { 2 ≤ self.new.room }
        ensures numbers { self.new.has_number_room ≡ true }
    {
        self.reading = false;
        let Some(door) = self.machine.take() else {
            self.begin_late();
            return;
        };
        let stage = self.stage;
        let step = self.turn(door, Some(value));
        self.hear_step(stage, step);
    }

    // The end of the machine, which was for this, counts.
    fn hear_step(&mut self, stage: Stage, step: DoorStep)
        requires room { CanTellReset self.old }
        requires size { IsDoneWithin step }
        ensures host { self.new.host ≡ (after_turn self.old.host stage step).part }
        ensures told { self.new.told ≡ self.old.told ++ (after_turn self.old.host stage step).entries }
        ensures room { 2 ≤ self.new.room }
        ensures numbers { self.new.has_number_room ≡ true }
    {
        match step {
            DoorStep::Done { length, bytes } => self.end_stage(
                stage,
                &bytes[..usize::from(length)],
            ),
            DoorStep::Read { .. } | DoorStep::Write { .. } | DoorStep::Refused { .. } => {}
        }
    }

    // The steps of a start follow each other; a look ends; a reset that was asked waits for its marks.
    fn end_stage(&mut self, stage: Stage, bytes: &[u8])
        requires { CanTellReset self.old }
        ensures host { self.new.host ≡ (ends_stage self.old.host stage bytes.now).part }
        ensures told { self.new.told ≡ self.old.told ++ (ends_stage self.old.host stage bytes.now).entries }
        ensures room { 2 ≤ self.new.room }
        ensures numbers { self.new.has_number_room ≡ true }
    {
        match stage {
            Stage::Idle | Stage::Look => {}
            Stage::Start => self.start_by(state_read(bytes)),
            Stage::StartReset => self.begin_facts(),
            Stage::Facts => self.begin_port_facts(),
            Stage::PortFacts => self.begin_init(),
            Stage::Init => self.begin_messages(),
            Stage::DiagnosticReset | Stage::UnitReset => self.hear_ready(),
        }
    }

    // A controller that is READY is started; one that is OPERATIONAL or in FAULT is reset before; RESET,
    // and a state without a name, is looked at again.
    fn start_by(&mut self, state: u32)
        requires { 9 ≤ self.old.room }
        ensures host { self.new.host ≡ starts_by self.old.host state }
        ensures told { self.new.told ≡ self.old.told }
        ensures room { self.old.room ≤ self.new.room + 9 }
        ensures numbers { self.new.has_number_room ≡ self.old.has_number_room }
        ensures aborts { self.new.has_abort_room ≡ self.old.has_abort_room }
    {
        if state == IOC_STATE_READY {
            self.begin_facts();
        } else if state == IOC_STATE_OPERATIONAL {
            self.begin(Stage::StartReset, DoorHost::unit());
        } else if state == IOC_STATE_FAULT {
            self.begin(Stage::StartReset, DoorHost::diag());
        } else {
            self.look_to_start();
        }
    }

    // The Doorbell is read for the state of the controller.
    pub(crate) fn look_to_start(&mut self)
        requires { 9 ≤ self.old.room }
        ensures host { self.new.host ≡ looks_to_start self.old.host }
        ensures told { self.new.told ≡ self.old.told }
        ensures room { self.old.room ≤ self.new.room + 9 }
        ensures numbers { self.new.has_number_room ≡ self.old.has_number_room }
        ensures aborts { self.new.has_abort_room ≡ self.old.has_abort_room }
    {
        self.begin(Stage::Start, DoorHost::look());
    }

    // After IOC Init all frames are returned, and the events are asked for.
    fn begin_messages(&mut self)
        requires { 65 ≤ self.old.room }
        ensures host { self.new.host ≡ begins_messages self.old.host }
        ensures told { self.new.told ≡ self.old.told }
        ensures room { self.old.room ≤ self.new.room + 65 }
        ensures numbers { self.new.has_number_room ≡ self.old.has_number_room }
        ensures aborts { self.new.has_abort_room ≡ self.old.has_abort_room }
    {
        self.return_all();
        self.ask_internal(Request::Notification);
    }
}

// The state in the bytes of the Doorbell, of which those that are missing are 0.
fn state_read(bytes: &[u8]) -> u32
    ensures { result ≡ state_read bytes.now }
{
    let dword = byte_at(bytes, 0)
        + 0x100 * byte_at(bytes, 1)
        + 0x1_0000 * byte_at(bytes, 2)
        + 0x100_0000 * byte_at(bytes, 3);
    dword & IOC_STATE_MASK
}

// The byte at a place, or 0 past the end.
fn byte_at(bytes: &[u8], at: usize) -> u32
    ensures value { result ≡ slice_index bytes.now at }
    ensures range { result < 256 }
{
    match bytes.get(at) {
        Some(byte) => u32::from(*byte),
        None => 0,
    }
}
