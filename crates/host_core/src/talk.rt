//! What a host said while it was played with.
ghost use Rattle.std.specs.Prelude.{◌≡◌, ◌++◌, IfOk, OnOk, map, option_to_list};
ghost use Rattle.host_core.specs.Plays.{said_in, talk_in};
ghost use Rattle.host_core.specs.declared.moves.HostSaid.TheVariants as said;

use crate::moves::HostSaid;
use mpt_rules::OutOfMemory;
use mpt_trace::Entry;
use std::alloc::Global;
use std::collections::VecDeque;
use std::marker::Model;

/// What a host said at one move.
#[derive(Drop)]
pub(crate) struct Saying {
    /// The place of the move.
    pub(crate) place: usize,
    /// What the call said.
    pub(crate) answer: Option<HostSaid>,
    /// The entries that were told then.
    pub(crate) told: VecDeque<Entry>,
}

/// What a host said while it was played with, each with the place of its move, from 0. A contract sees the list of these
/// pairs.
#[derive(Drop)]
pub struct HostTalk {
    sayings: VecDeque<Saying>,
}

impl Model for HostTalk {
    ghost use Rattle.std.specs.Prelude.{ℕ, List};
    ghost use Rattle.host_core.specs.declared.moves.HostSaid.{HostSaid};
    ghost use Rattle.host_core.specs.Plays.{talk_in};

    ghost Value = { List (ℕ × HostSaid) };

    ghost view = { λ t. talk_in t.sayings.items };
}

impl HostTalk {
    // The talk of these sayings.
    pub(crate) fn new(sayings: VecDeque<Saying>) -> HostTalk
        ensures { result ≡ talk_in sayings.items }
    {
        HostTalk { sayings }
    }

    /// The pairs, in the order in which they were said; or OutOfMemory.
    pub fn into_vec(self, alloc: Global) -> Result<Vec<(usize, HostSaid)>, OutOfMemory>
        ensures { IfOk result (λ pairs. pairs.items ≡ self) }
    {
        let mut pairs = Vec::new(alloc);
        let mut sayings = self.sayings;
        while let Some(saying) = sayings.pop_front() {
            add(&mut pairs, saying)?;
        }
        Ok(pairs)
    }
}

// What was said at a move comes behind the other pairs.
fn add(pairs: &mut Vec<(usize, HostSaid)>, saying: Saying) -> Result<(), OutOfMemory>
    ensures { OnOk result (pairs.new.items ≡ pairs.old.items ++ said_in saying) }
{
    let Saying {
        place,
        answer,
        told,
    } = saying;
    add_answer(pairs, place, answer)?;
    add_told(pairs, place, told)
}

// What a call said, if it said something.
fn add_answer(
    pairs: &mut Vec<(usize, HostSaid)>,
    place: usize,
    answer: Option<HostSaid>,
) -> Result<(), OutOfMemory>
    ensures { OnOk result (pairs.new.items ≡ pairs.old.items ++ map (λ s. (place, s)) (option_to_list answer)) }
{
    if let Some(said) = answer {
        pairs.push((place, said))?;
    }
    Ok(())
}

// The entries that were told then.
fn add_told(
    pairs: &mut Vec<(usize, HostSaid)>,
    place: usize,
    mut told: VecDeque<Entry>,
) -> Result<(), OutOfMemory>
    ensures { OnOk result (pairs.new.items ≡ pairs.old.items ++ map (λ s. (place, s)) (map said.Told told.items)) }
{
    while let Some(entry) = told.pop_front() {
        pairs.push((place, HostSaid::Told(entry)))?;
    }
    Ok(())
}
