//! The adapter's side of the doorbell.
ghost use Rattle.std.specs.Prelude.{◌≡◌, ◌<◌, ℕ};
ghost use Rattle.mpi_doorbell.specs.Bytes.{IsReply};
ghost use Rattle.mpi_doorbell.specs.Handshake.{IsAsked, WaitsIfAsked};
ghost use Rattle.mpi_doorbell.specs.DoorRegisters.{answered, diagnostic_value, diagnostic_written, doorbell_value, doorbell_written, handshake_opened, key_written, linked_up, new_registers, register_value, register_written, released, restarted, bits_if, is_unlocked, working_written};
ghost use Rattle.mpi_doorbell.specs.Keys.{place_after};
ghost use Rattle.mpi_doorbell.specs.Sizes.{IsAskedWithin};

use crate::effect::Effect;
use crate::exchange::{Exchange, replying};
use crate::registers::*;
use crate::state::IocState;
use byteorder::{ByteOrder, LittleEndian};
use std::marker::Model;

/// The keys that unlock HostDiagnostic, in order (mpi2.h, MPI2_WRSEQ_1ST_KEY_VALUE to
/// MPI2_WRSEQ_6TH_KEY_VALUE).
const UNLOCK_KEYS: [u8; 6] = [0xF, 0x4, 0xB, 0x2, 0x7, 0xD];

/// Where the reply of a handshake has its IOCStatus (mpi2.h, MPI2_DEFAULT_REPLY).
const IOC_STATUS: usize = 0x0E;

/// The code of FAULT after a handshake of 0 or of more than 32 dwords.
const FAULT_DWORDS: u16 = 1;

/// The code of FAULT after a function that the doorbell doesn't have.
const FAULT_FUNCTION: u16 = 2;

/// The adapter's side of the doorbell: its registers, the handshake that is under way, and the state.
#[derive(Drop)]
pub struct DoorIoc {
    state: IocState,
    who_init: u8,
    exchange: Exchange,
    ioc2sys: bool,
    key_place: u8,
    hold_reset: bool,
    reset_adapter: bool,
    reset_history: bool,
    link_waits: bool,
    interrupt_mask: u32,
    reply_post_host_index: u32,
}

impl Model for DoorIoc {
    ghost use Rattle.std.specs.Prelude.{◌<◌};
    ghost use Rattle.mpi_doorbell.specs.DoorRegisters.{DoorRegisters};

    ghost Value = { DoorRegisters };

    ghost view = { λ d. record {
      state = d.state;
      who_init = d.who_init;
      handshake = d.exchange;
      ioc2sys = d.ioc2sys;
      key_place = d.key_place;
      hold_reset = d.hold_reset;
      reset_adapter = d.reset_adapter;
      reset_history = d.reset_history;
      link_waits = d.link_waits;
      interrupt_mask = d.interrupt_mask;
      reply_post_host_index = d.reply_post_host_index;
    } };

    ghost invariant = { λ d. (d.who_init < 8) × (d.key_place < 7) };
}

impl DoorIoc {
    /// The registers at power-up: the state is READY, and all else reads 0.
    pub fn new() -> DoorIoc
        ensures { result ≡ new_registers }
    {
        DoorIoc {
            state: IocState::Ready,
            who_init: 0,
            exchange: Exchange::idle(),
            ioc2sys: false,
            key_place: 0,
            hold_reset: false,
            reset_adapter: false,
            reset_history: false,
            link_waits: false,
            interrupt_mask: 0,
            reply_post_host_index: 0,
        }
    }

    /// What a register reads. Registers that the doorbell doesn't have, WriteSequence,
    /// ReplyFreeHostIndex and the request descriptor's two registers read 0.
    pub fn read(&self, reg: u16) -> u32
        ensures { result ≡ register_value self.now reg }
    {
        match reg {
            DOORBELL => self.doorbell(),
            HOST_DIAGNOSTIC => self.diagnostic(),
            HOST_INTERRUPT_STATUS => bits_if(self.ioc2sys, IOC2SYS_DB_STATUS),
            HOST_INTERRUPT_MASK => self.interrupt_mask,
            REPLY_POST_HOST_INDEX => self.reply_post_host_index,
            _ => 0,
        }
    }

    /// A value is written to a register. Writes to registers that the doorbell doesn't have, to
    /// ReplyFreeHostIndex and to the request descriptor's two registers do nothing. In FAULT only
    /// WriteSequence and HostDiagnostic take a write. The state isn't changed by what the effect asks
    /// for: the adapter answers it by `answer`, `restart` or `set_state`.
    pub fn write(&mut self, reg: u16, value: u32) -> Effect
        ensures after { self.new ≡ (register_written self.old reg value).registers }
        ensures effect { result ≡ (register_written self.old reg value).effect }
        ensures size { IsAskedWithin result }
        ensures waits { WaitsIfAsked result self.new.handshake }
    {
        match reg {
            WRITE_SEQUENCE => {
                self.write_key(value);
                Effect::None
            }
            HOST_DIAGNOSTIC => self.write_diagnostic(value),
            _ => match self.state {
                IocState::Fault(_) => Effect::None,
                _ => self.write_working(reg, value),
            },
        }
    }

    /// The asked message is answered by these bytes: the host reads them word by word. An IOC Init
    /// whose reply has IOCStatus 0 sets WhoInit.
    pub fn answer(&mut self, bytes: &[u8])
        requires asked { IsAsked self.old.handshake }
        requires reply { IsReply bytes.now }
        ensures { self.new ≡ answered self.old bytes.now }
    {
        if LittleEndian::read_u16(&bytes[IOC_STATUS..]) == 0 {
            if let Some(who_init) = self.exchange.init_by() {
                self.who_init = who_init;
            }
        }
        self.exchange = replying(bytes);
        self.ioc2sys = true;
    }

    /// The state.
    pub fn state(&self) -> IocState
        ensures { result ≡ self.now.state }
    {
        self.state
    }

    /// Who initialised the adapter: WhoInit of the last IOC Init whose reply had IOCStatus 0, or 0 where there was none
    /// since the last reset.
    pub fn who_init(&self) -> u8
        ensures { result ≡ self.now.who_init }
    {
        self.who_init
    }

    /// The state changes, and nothing else.
    pub fn set_state(&mut self, state: IocState)
        ensures { self.new ≡ record self.old { state = state } }
    {
        self.state = state;
    }

    /// A reset begins: the state is RESET, a handshake is dropped, DOORBELL_USED and
    /// IOC2SYS_DB_STATUS are clear, WhoInit is 0, and a link that waited is forgotten.
    pub fn restart(&mut self)
        ensures { self.new ≡ restarted self.old }
    {
        self.state = IocState::Reset;
        self.who_init = 0;
        self.exchange = Exchange::idle();
        self.ioc2sys = false;
        self.link_waits = false;
    }

    /// The adapter is linked to its fabric again: RESET_ADAPTER is clear, and the state is READY, or
    /// is READY as soon as HOLD_IOC_RESET is cleared.
    pub fn linked(&mut self)
        ensures { self.new ≡ linked_up self.old }
    {
        self.reset_adapter = false;
        self.link_waits = true;
        self.release();
    }

    fn doorbell(&self) -> u32
        ensures { result ≡ doorbell_value self.now }
    {
        let data = match self.state {
            IocState::Fault(code) => code,
            _ => self.exchange.word(),
        };
        self.state.bits()
            + bits_if(!self.exchange.is_idle(), DOORBELL_USED)
            + (u32::from(self.who_init) << DOORBELL_WHO_INIT_SHIFT)
            + u32::from(data)
    }

    fn diagnostic(&self) -> u32
        ensures { result ≡ diagnostic_value self.now }
    {
        bits_if(self.is_unlocked(), DIAG_WRITE_ENABLE)
            + bits_if(self.reset_history, DIAG_RESET_HISTORY)
            + bits_if(self.reset_adapter, DIAG_RESET_ADAPTER)
            + bits_if(self.hold_reset, DIAG_HOLD_IOC_RESET)
    }

    fn is_unlocked(&self) -> bool
        ensures { result ≡ is_unlocked self.now }
    {
        usize::from(self.key_place) == UNLOCK_KEYS.len()
    }

    fn write_key(&mut self, value: u32)
        ensures { self.new ≡ key_written self.old value }
    {
        self.key_place = place_after(self.key_place, (value & WRITE_SEQUENCE_KEY_MASK) as u8);
    }

    fn write_diagnostic(&mut self, value: u32) -> Effect
        ensures after { self.new ≡ (diagnostic_written self.old value).registers }
        ensures effect { result ≡ (diagnostic_written self.old value).effect }
        ensures size { IsAskedWithin result }
        ensures waits { WaitsIfAsked result self.new.handshake }
    {
        if !self.is_unlocked() {
            return Effect::None;
        }
        self.hold_reset = value & DIAG_HOLD_IOC_RESET != 0;
        if value & DIAG_RESET_ADAPTER != 0 {
            self.reset_adapter = true;
            self.reset_history = true;
            self.link_waits = false;
            return Effect::AdapterReset;
        }
        self.release();
        Effect::None
    }

    fn release(&mut self)
        ensures { self.new ≡ released self.old }
    {
        if self.link_waits && !self.hold_reset {
            self.state = IocState::Ready;
            self.link_waits = false;
        }
    }

    fn write_working(&mut self, reg: u16, value: u32) -> Effect
        ensures after { self.new ≡ (working_written self.old reg value).registers }
        ensures effect { result ≡ (working_written self.old reg value).effect }
        ensures size { IsAskedWithin result }
        ensures waits { WaitsIfAsked result self.new.handshake }
    {
        match reg {
            DOORBELL => return self.write_doorbell(value),
            HOST_INTERRUPT_STATUS => self.ioc2sys = self.exchange.advance(),
            HOST_INTERRUPT_MASK => self.interrupt_mask = value,
            REPLY_POST_HOST_INDEX => self.reply_post_host_index = value,
            _ => {}
        }
        Effect::None
    }

    fn write_doorbell(&mut self, value: u32) -> Effect
        ensures after { self.new ≡ (doorbell_written self.old value).registers }
        ensures effect { result ≡ (doorbell_written self.old value).effect }
        ensures size { IsAskedWithin result }
        ensures waits { WaitsIfAsked result self.new.handshake }
    {
        if !self.exchange.is_idle() {
            return self.exchange.take_dword(value);
        }
        let function = (value >> DOORBELL_FUNCTION_SHIFT) as u8;
        match function {
            FUNCTION_HANDSHAKE => self.open((value >> DOORBELL_ADD_DWORDS_SHIFT & 0xFF) as u8),
            FUNCTION_MESSAGE_UNIT_RESET => Effect::UnitReset,
            _ => Effect::Fault(FAULT_FUNCTION),
        }
    }

    fn open(&mut self, dwords: u8) -> Effect
        ensures after { self.new ≡ (handshake_opened self.old dwords).registers }
        ensures effect { result ≡ (handshake_opened self.old dwords).effect }
        ensures size { IsAskedWithin result }
        ensures waits { WaitsIfAsked result self.new.handshake }
    {
        if dwords == 0 || dwords > HANDSHAKE_DWORDS {
            return Effect::Fault(FAULT_DWORDS);
        }
        self.exchange = Exchange::opened(dwords);
        self.ioc2sys = true;
        Effect::None
    }
}

fn bits_if(set: bool, bits: u32) -> u32
    ensures { result ≡ bits_if set bits }
{
    if set { bits } else { 0 }
}

fn place_after(place: u8, key: u8) -> u8
    requires { place < 7 }
    ensures after { result ≡ place_after place key }
    ensures bound { result < 7 }
{
    match UNLOCK_KEYS.get(usize::from(place)) {
        Some(expected) if *expected == key => place + 1,
        Some(_) | None => 0,
    }
}
