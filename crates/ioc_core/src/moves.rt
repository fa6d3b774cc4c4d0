//! What a hostile host and a hostile fabric may do to a controller, and what it puts.
ghost use Rattle.std.specs.Prelude.{◌≡◌};

use mpt_trace::{Back, Down, Out, Up};
use std::marker::Model;

/// A move: one call of the controller.
#[derive(Drop)]
pub enum IocMove {
    /// It takes an item of the lane down.
    Down(Down),
    /// It takes an item of the lane back.
    Back(Back),
    /// It processes the front of its high queue.
    High,
    /// It processes the front of its normal queue.
    Normal,
    /// It puts the front of reply queue 0.
    PutUp,
    /// It puts the front of a reply queue. Where there is no such queue nothing happens.
    PutUpOn(u8),
    /// It puts the front of the lane out.
    PutOut,
}

/// What a controller puts.
#[derive(Drop)]
pub enum IocSaid {
    /// For the host.
    Up(Up),
    /// For the fabric.
    Out(Out),
}

/// What a controller put while it was played with, each with the place of its move, from 0. A contract sees the list of
/// these pairs.
#[derive(Drop)]
pub struct IocTalk {
    said: Vec<(usize, IocSaid)>,
}

impl Model for IocTalk {
    ghost use Rattle.std.specs.Prelude.{ℕ, List};
    ghost use Rattle.ioc_core.specs.declared.moves.IocSaid.{IocSaid};

    ghost Value = { List (ℕ × IocSaid) };

    ghost view = { λ t. t.said.items };
}

impl IocTalk {
    /// The talk of these pairs.
    pub(crate) fn new(said: Vec<(usize, IocSaid)>) -> IocTalk
        ensures { result ≡ said.items }
    {
        IocTalk { said }
    }

    /// The pairs, in the order in which they were put.
    pub fn as_slice(&self) -> &[(usize, IocSaid)]
        ensures { result.now ≡ self.now }
    {
        &self.said
    }
}
