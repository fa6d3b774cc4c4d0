//! The host's side of the doorbell.
ghost use Rattle.std.specs.Prelude.{◌≡◌, [], false};
ghost use Rattle.mpi_doorbell.specs.Bytes.{IsMessage};
ghost use Rattle.mpi_doorbell.specs.HostDoor.{finishes, reads, refuses, writes};
ghost use Rattle.byteorder.specs.Endian.{little_bytes};
ghost use Rattle.mpi_doorbell.specs.HostHandshake.{hears_left_over, hears_news, hears_opened, hears_taken, hears_used, hears_word, is_bad_length, is_whole, opens, sends, takes_word, with_word};
ghost use Rattle.mpi_doorbell.specs.HostReset.{hears_reset_over, hears_state, hears_unit_reset, hears_unlocked, writes_key};
ghost use Rattle.mpi_doorbell.specs.HostSteps.{acts, diagnostic_reset, Expects, ExpectsAfter, handshake_of_message, hears, hears_reading, look_at_doorbell, next_step, TakesTurn, unit_reset};
ghost use Rattle.mpi_doorbell.specs.Sizes.{IsDoneWithin};

use crate::padded::pad;
use crate::registers::*;
use crate::stage::{Reading, ResetKind, Stage};
use crate::step::DoorStep;
use byteorder::{ByteOrder, LittleEndian};
use std::marker::Model;

/// What the host writes to WriteSequence to unlock HostDiagnostic: a 0, which begins anew, and the
/// keys (mpi2.h, MPI2_WRSEQ_FLUSH_KEY_VALUE and MPI2_WRSEQ_1ST_KEY_VALUE to
/// MPI2_WRSEQ_6TH_KEY_VALUE).
const RESET_KEYS: [u8; 7] = [0x0, 0xF, 0x4, 0xB, 0x2, 0x7, 0xD];

/// Where a reply has its MsgLength, in dwords (mpi2.h, MPI2_DEFAULT_REPLY).
const MSG_LENGTH: usize = 0x02;

/// The host's side of the doorbell, one register access after the other: a handshake, a diagnostic
/// reset, a message unit reset, or a look at the Doorbell.
#[derive(Drop)]
pub struct DoorHost {
    stage: Stage,
    message: [u8; 128],
    dwords: u8,
    sent: u8,
    reply: [u8; 128],
    words: u8,
}

impl Model for DoorHost {
    ghost use Rattle.std.specs.Prelude.{◌*◌, slice_range, take};
    ghost use Rattle.mpi_doorbell.specs.HostDoor.{HostDoor};
    ghost use Rattle.mpi_doorbell.specs.HostView.{IsSound};

    ghost Value = { HostDoor };

    ghost view = { λ d. record {
      stage = d.stage;
      unsent = slice_range d.message (4 * d.sent) (4 * d.dwords);
      reply = take (2 * d.words) d.reply;
    } };

    ghost invariant = { λ d. IsSound d.dwords d.sent d.words d.reply };
}

impl DoorHost {
    /// A handshake that asks this message of the adapter. It is done with the reply.
    pub fn handshake(bytes: &[u8]) -> DoorHost
        requires { IsMessage bytes.now }
        ensures { result ≡ handshake_of_message bytes.now }
    {
        DoorHost {
            stage: Stage::Reads(Reading::Used),
            message: pad(bytes),
            dwords: (bytes.len() / 4) as u8,
            sent: 0,
            reply: [0; 128],
            words: 0,
        }
    }

    /// A diagnostic reset. It is done, with length 0, once the Doorbell's state is READY.
    pub fn diag() -> DoorHost
        ensures { result ≡ diagnostic_reset }
    {
        DoorHost::at(Stage::WritesKey(0))
    }

    /// A message unit reset. It is done, with length 0, once the Doorbell's state is READY.
    pub fn unit() -> DoorHost
        ensures { result ≡ unit_reset }
    {
        DoorHost::at(Stage::ResetsUnit)
    }

    /// A look at the Doorbell. It is done with its value, as 4 bytes, the lowest first.
    pub fn look() -> DoorHost
        ensures { result ≡ look_at_doorbell }
    {
        DoorHost::at(Stage::Reads(Reading::Doorbell))
    }

    fn at(stage: Stage) -> DoorHost
        ensures { result ≡ record { stage = stage; unsent = []; reply = [] } }
    {
        DoorHost {
            stage,
            message: [0; 128],
            dwords: 0,
            sent: 0,
            reply: [0; 128],
            words: 0,
        }
    }

    /// An equal machine: what it would do next is asked of it.
    pub fn copy(&self) -> DoorHost
        ensures { result ≡ self.now }
    {
        DoorHost {
            stage: self.stage,
            message: self.message,
            dwords: self.dwords,
            sent: self.sent,
            reply: self.reply,
            words: self.words,
        }
    }

    /// The next step. The value is given exactly where the last step was a Read, and it is what that
    /// register read. After Done or Refused there is no next step. Refused comes exactly where the
    /// host's table of steps says, with the value that was read.
    pub fn next(&mut self, value: Option<u32>) -> DoorStep
        requires { Expects self.old.stage value }
        ensures after { self.new ≡ (next_step self.old value).door }
        ensures step { result ≡ (next_step self.old value).step }
        ensures size { IsDoneWithin result }
        ensures turn { TakesTurn self.new.stage result }
        ensures goes_on { ExpectsAfter self.new.stage result }
    {
        match value {
            None => self.act(),
            Some(value) => self.hear(value),
        }
    }

    fn act(&mut self) -> DoorStep
        requires { Expects self.old.stage None }
        ensures after { self.new ≡ (acts self.old self.old.stage).door }
        ensures step { result ≡ (acts self.old self.old.stage).step }
        ensures size { IsDoneWithin result }
    {
        match self.stage {
            Stage::Reads(reading) => self.read(reading),
            Stage::Opens => self.open(),
            Stage::WritesKey(place) => self.write_key(place),
            Stage::Locks => self.write(
                Stage::Reads(Reading::State(ResetKind::Diagnostic)),
                WRITE_SEQUENCE,
                0,
            ),
            Stage::ResetsUnit => {
                let reset = u32::from(FUNCTION_MESSAGE_UNIT_RESET) << DOORBELL_FUNCTION_SHIFT;
                self.write(Stage::Reads(Reading::UnitReset), DOORBELL, reset)
            }
            Stage::Finishes => self.finish(),
            Stage::Awaits(_) | Stage::Ended => unreachable!(),
        }
    }

    fn hear(&mut self, value: u32) -> DoorStep
        requires { Expects self.old.stage (Some value) }
        ensures after { self.new ≡ (hears self.old self.old.stage value).door }
        ensures step { result ≡ (hears self.old self.old.stage value).step }
        ensures size { IsDoneWithin result }
    {
        match self.stage {
            Stage::Awaits(reading) => self.hear_reading(reading, value),
            _ => unreachable!(),
        }
    }

    fn hear_reading(&mut self, reading: Reading, value: u32) -> DoorStep
        ensures after { self.new ≡ (hears_reading self.old reading value).door }
        ensures step { result ≡ (hears_reading self.old reading value).step }
        ensures size { IsDoneWithin result }
    {
        match reading {
            Reading::Used => self.hear_used(value),
            Reading::LeftOver => self.hear_left_over(value),
            Reading::Opened => self.hear_opened(value),
            Reading::Taken => self.hear_taken(value),
            Reading::News => self.hear_news(value),
            Reading::Word => self.hear_word(value),
            Reading::Unlocked => self.hear_unlocked(value),
            Reading::ResetOver => self.hear_reset_over(value),
            Reading::State(kind) => self.hear_state(kind, value),
            Reading::UnitReset => self.hear_unit_reset(value),
            Reading::Doorbell => self.hear_doorbell(value),
        }
    }

    fn read(&mut self, reading: Reading) -> DoorStep
        ensures after { self.new ≡ (reads self.old reading).door }
        ensures step { result ≡ (reads self.old reading).step }
        ensures size { IsDoneWithin result }
    {
        self.stage = Stage::Awaits(reading);
        DoorStep::Read {
            reg: reading.register(),
        }
    }

    fn write(&mut self, next: Stage, reg: u16, value: u32) -> DoorStep
        ensures after { self.new ≡ (writes self.old next reg value).door }
        ensures step { result ≡ (writes self.old next reg value).step }
        ensures size { IsDoneWithin result }
    {
        self.stage = next;
        DoorStep::Write { reg, value }
    }

    fn refuse(&mut self, step: u8, value: u32) -> DoorStep
        ensures after { self.new ≡ (refuses self.old step value).door }
        ensures step { result ≡ (refuses self.old step value).step }
        ensures size { IsDoneWithin result }
    {
        self.stage = Stage::Ended;
        DoorStep::Refused { step, value }
    }

    fn finish(&mut self) -> DoorStep
        ensures after { self.new ≡ (finishes self.old self.old.reply).door }
        ensures step { result ≡ (finishes self.old self.old.reply).step }
        ensures size { IsDoneWithin result }
    {
        self.stage = Stage::Ended;
        let length = 2 * self.words;
        DoorStep::Done {
            length,
            bytes: pad(&self.reply[..usize::from(length)]),
        }
    }

    fn hear_used(&mut self, value: u32) -> DoorStep
        ensures after { self.new ≡ (hears_used self.old value).door }
        ensures step { result ≡ (hears_used self.old value).step }
        ensures size { IsDoneWithin result }
    {
        if value & DOORBELL_USED != 0 {
            return self.refuse(1, value);
        }
        self.read(Reading::LeftOver)
    }

    fn hear_left_over(&mut self, value: u32) -> DoorStep
        ensures after { self.new ≡ (hears_left_over self.old value).door }
        ensures step { result ≡ (hears_left_over self.old value).step }
        ensures size { IsDoneWithin result }
    {
        if value & IOC2SYS_DB_STATUS != 0 {
            return self.write(Stage::Opens, HOST_INTERRUPT_STATUS, 0);
        }
        self.open()
    }

    fn open(&mut self) -> DoorStep
        ensures after { self.new ≡ (opens self.old).door }
        ensures step { result ≡ (opens self.old).step }
        ensures size { IsDoneWithin result }
    {
        let function = u32::from(FUNCTION_HANDSHAKE) << DOORBELL_FUNCTION_SHIFT;
        let dwords = u32::from(self.dwords - self.sent) << DOORBELL_ADD_DWORDS_SHIFT;
        self.write(Stage::Reads(Reading::Opened), DOORBELL, function + dwords)
    }

    fn hear_opened(&mut self, value: u32) -> DoorStep
        ensures after { self.new ≡ (hears_opened self.old value).door }
        ensures step { result ≡ (hears_opened self.old value).step }
        ensures size { IsDoneWithin result }
    {
        if value & IOC2SYS_DB_STATUS != 0 {
            return self.write(Stage::Reads(Reading::Taken), HOST_INTERRUPT_STATUS, 0);
        }
        self.read(Reading::Opened)
    }

    fn hear_taken(&mut self, value: u32) -> DoorStep
        ensures after { self.new ≡ (hears_taken self.old value).door }
        ensures step { result ≡ (hears_taken self.old value).step }
        ensures size { IsDoneWithin result }
    {
        if value & SYS2IOC_DB_STATUS != 0 {
            return self.read(Reading::Taken);
        }
        self.send()
    }

    fn send(&mut self) -> DoorStep
        ensures after { self.new ≡ (sends self.old).door }
        ensures step { result ≡ (sends self.old).step }
        ensures size { IsDoneWithin result }
    {
        if self.sent == self.dwords {
            return self.read(Reading::News);
        }
        let dword = LittleEndian::read_u32(&self.message[4 * usize::from(self.sent)..]);
        self.sent += 1;
        self.write(Stage::Reads(Reading::Taken), DOORBELL, dword)
    }

    fn hear_news(&mut self, value: u32) -> DoorStep
        ensures after { self.new ≡ (hears_news self.old value).door }
        ensures step { result ≡ (hears_news self.old value).step }
        ensures size { IsDoneWithin result }
    {
        if value & IOC2SYS_DB_STATUS != 0 {
            return self.read(Reading::Word);
        }
        self.read(Reading::News)
    }

    fn hear_word(&mut self, value: u32) -> DoorStep
        ensures after { self.new ≡ (hears_word self.old value).door }
        ensures step { result ≡ (hears_word self.old value).step }
        ensures size { IsDoneWithin result }
    {
        if !self.is_whole() {
            return self.take_word(value);
        }
        if value & DOORBELL_USED != 0 {
            return self.read(Reading::Word);
        }
        self.write(Stage::Finishes, HOST_INTERRUPT_STATUS, 0)
    }

    fn is_whole(&self) -> bool
        ensures { result ≡ is_whole self.now.reply }
    {
        self.words >= 2 && self.words >= 2 * self.reply[MSG_LENGTH]
    }

    fn take_word(&mut self, value: u32) -> DoorStep
        requires { is_whole self.old.reply ≡ false }
        ensures after { self.new ≡ (takes_word self.old value).door }
        ensures step { result ≡ (takes_word self.old value).step }
        ensures size { IsDoneWithin result }
    {
        if self.is_bad_length(value) {
            return self.refuse(6, value);
        }
        self.append(value);
        self.write(Stage::Reads(Reading::News), HOST_INTERRUPT_STATUS, 0)
    }

    fn is_bad_length(&self, value: u32) -> bool
        ensures { result ≡ is_bad_length self.now.reply value }
    {
        let msg_length = value & 0xFF;
        self.words == 1 && !(5 <= msg_length && msg_length <= 32)
    }

    fn append(&mut self, value: u32)
        requires more { is_whole self.old.reply ≡ false }
        requires good { is_bad_length self.old.reply value ≡ false }
        ensures { self.new ≡ with_word self.old value }
    {
        let word = (value & DOORBELL_DATA_MASK) as u16;
        LittleEndian::write_u16(&mut self.reply[2 * usize::from(self.words)..], word);
        self.words += 1;
    }

    fn write_key(&mut self, place: u8) -> DoorStep
        ensures after { self.new ≡ (writes_key self.old place).door }
        ensures step { result ≡ (writes_key self.old place).step }
        ensures size { IsDoneWithin result }
    {
        match RESET_KEYS.get(usize::from(place)) {
            Some(key) => self.write(Stage::WritesKey(place + 1), WRITE_SEQUENCE, u32::from(*key)),
            None => self.read(Reading::Unlocked),
        }
    }

    fn hear_unlocked(&mut self, value: u32) -> DoorStep
        ensures after { self.new ≡ (hears_unlocked self.old value).door }
        ensures step { result ≡ (hears_unlocked self.old value).step }
        ensures size { IsDoneWithin result }
    {
        if value & DIAG_WRITE_ENABLE == 0 {
            return self.refuse(21, value);
        }
        self.write(
            Stage::Reads(Reading::ResetOver),
            HOST_DIAGNOSTIC,
            value | DIAG_RESET_ADAPTER,
        )
    }

    fn hear_reset_over(&mut self, value: u32) -> DoorStep
        ensures after { self.new ≡ (hears_reset_over self.old value).door }
        ensures step { result ≡ (hears_reset_over self.old value).step }
        ensures size { IsDoneWithin result }
    {
        if value & DIAG_RESET_ADAPTER != 0 {
            return self.read(Reading::ResetOver);
        }
        self.write(Stage::Locks, HOST_DIAGNOSTIC, value & !DIAG_HOLD_IOC_RESET)
    }

    fn hear_state(&mut self, kind: ResetKind, value: u32) -> DoorStep
        ensures after { self.new ≡ (hears_state self.old kind value).door }
        ensures step { result ≡ (hears_state self.old kind value).step }
        ensures size { IsDoneWithin result }
    {
        match value & IOC_STATE_MASK {
            IOC_STATE_READY => {
                self.stage = Stage::Ended;
                DoorStep::Done {
                    length: 0,
                    bytes: pad(&[]),
                }
            }
            IOC_STATE_FAULT | IOC_STATE_OPERATIONAL => self.refuse(kind.state_step(), value),
            _ => self.read(Reading::State(kind)),
        }
    }

    fn hear_unit_reset(&mut self, value: u32) -> DoorStep
        ensures after { self.new ≡ (hears_unit_reset self.old value).door }
        ensures step { result ≡ (hears_unit_reset self.old value).step }
        ensures size { IsDoneWithin result }
    {
        if value & SYS2IOC_DB_STATUS != 0 {
            return self.read(Reading::UnitReset);
        }
        self.read(Reading::State(ResetKind::MessageUnit))
    }

    fn hear_doorbell(&mut self, value: u32) -> DoorStep
        ensures after { self.new ≡ (finishes self.old (little_bytes 4 value)).door }
        ensures step { result ≡ (finishes self.old (little_bytes 4 value)).step }
        ensures size { IsDoneWithin result }
    {
        self.stage = Stage::Ended;
        let mut bytes = [0; 4];
        LittleEndian::write_u32(&mut bytes, value);
        DoorStep::Done {
            length: 4,
            bytes: pad(&bytes),
        }
    }
}
