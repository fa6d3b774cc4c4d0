//! A handshake as the adapter sees it: a message comes dword by dword, its reply goes word by word.
ghost use Rattle.std.specs.Prelude.{◌≡◌, ◌<◌, ◌≤◌, [], IsTrue};
ghost use Rattle.mpi_doorbell.specs.Bytes.{IsReply};
ghost use Rattle.mpi_doorbell.specs.Handshake.{asked_by, Collects, dword_taken, Idle, init_by, is_idle, is_replying, next_word, Replies, WaitsIfAsked, word_read};
ghost use Rattle.mpi_doorbell.specs.Sizes.{IsAskedWithin};

use crate::effect::Effect;
use crate::padded::pad;
use crate::registers::FUNCTION_IOC_INIT;
use byteorder::{ByteOrder, LittleEndian};
use std::marker::Model;

/// How far a handshake is.
#[derive(Clone, Copy)]
pub enum Progress {
    /// There is none.
    Idle,
    /// `got` dwords came, and `missing` are missing.
    Collects { got: u8, missing: u8 },
    /// The message of so many dwords waits for its reply.
    Asked { dwords: u8 },
    /// The word of this place is read, of so many.
    Replies { word: u8, words: u8 },
}

/// The adapter's side of a handshake.
#[derive(Drop)]
pub struct Exchange {
    progress: Progress,
    bytes: [u8; 128],
}

impl Model for Exchange {
    ghost use Rattle.mpi_doorbell.specs.Handshake.{Handshake};

    ghost Value = { Handshake };

    ghost use Rattle.mpi_doorbell.specs.Exchange.{handshake_of, IsSound};

    ghost view = { λ x. handshake_of x.progress x.bytes };

    ghost invariant = { λ x. IsSound x.progress };
}

impl Exchange {
    /// No handshake.
    pub fn idle() -> Exchange
        ensures { result ≡ Idle }
    {
        Exchange {
            progress: Progress::Idle,
            bytes: [0; 128],
        }
    }

    /// A handshake of so many dwords begins.
    pub fn opened(dwords: u8) -> Exchange
        requires some { 0 < dwords }
        requires fits { dwords ≤ 32 }
        ensures { result ≡ Collects dwords [] }
    {
        Exchange {
            progress: Progress::Collects {
                got: 0,
                missing: dwords,
            },
            bytes: [0; 128],
        }
    }

    /// Is there no handshake?
    pub fn is_idle(&self) -> bool
        ensures { result ≡ is_idle self.now }
    {
        matches!(self.progress, Progress::Idle)
    }

    /// A dword is written to the Doorbell during a handshake.
    pub fn take_dword(&mut self, dword: u32) -> Effect
        ensures after { self.new ≡ dword_taken self.old dword }
        ensures effect { result ≡ asked_by self.old dword }
        ensures size { IsAskedWithin result }
        ensures waits { WaitsIfAsked result self.new }
    {
        let Progress::Collects { got, missing } = self.progress else {
            return Effect::None;
        };
        let at = 4 * usize::from(got);
        LittleEndian::write_u32(&mut self.bytes[at..], dword);
        let dwords = got + 1;
        if missing > 1 {
            self.progress = Progress::Collects {
                got: dwords,
                missing: missing - 1,
            };
            return Effect::None;
        }
        self.progress = Progress::Asked { dwords };
        Effect::Asked {
            length: 4 * dwords,
            bytes: pad(&self.bytes[..at + 4]),
        }
    }

    /// The word of the reply that is read, or 0.
    pub fn word(&self) -> u16
        ensures { result ≡ word_read self.now }
    {
        match self.progress {
            Progress::Replies { word, .. } => LittleEndian::read_u16(
                &self.bytes[2 * usize::from(word)..],
            ),
            _ => 0,
        }
    }

    /// Goes on to the reply's next word. Is it a reply that is read?
    pub fn advance(&mut self) -> bool
        ensures after { self.new ≡ next_word self.old }
        ensures replying { result ≡ is_replying self.old }
    {
        let Progress::Replies { word, words } = self.progress else {
            return false;
        };
        if word + 1 < words {
            self.progress = Progress::Replies {
                word: word + 1,
                words,
            };
            return true;
        }
        self.progress = Progress::Idle;
        true
    }

    /// The WhoInit of the message, if it is an IOC Init (mpi2_ioc.h, MPI2_IOC_INIT_REQUEST).
    pub fn init_by(&self) -> Option<u8>
        ensures { result ≡ init_by self.now }
    {
        match self.progress {
            Progress::Asked { .. } if self.bytes[3] == FUNCTION_IOC_INIT => Some(self.bytes[0] & 7),
            _ => None,
        }
    }
}

/// A handshake whose reply is handed over.
pub fn replying(reply: &[u8]) -> Exchange
    requires { IsReply reply.now }
    ensures { result ≡ Replies reply.now }
{
    Exchange {
        progress: Progress::Replies {
            word: 0,
            words: (reply.len() / 2) as u8,
        },
        bytes: pad(reply),
    }
}
