//! A list of moves played on a host.
ghost use Rattle.std.specs.Prelude.{◌≡◌, ◌<◌, ◌++◌, ◌∷◌, [], IfErr, IfOk, IsErr, IsSome, OnErr, OnOk, option_map};
ghost use Rattle.mpt_rules.specs.Host.Takes.{down_sent};
ghost use Rattle.host_core.specs.Driver.{IsSame};
ghost use Rattle.host_core.specs.Plays.{HasPlayed, after_moves, moved, placed, talk_from, talk_in, told_after};
ghost use Rattle.host_core.specs.Taking.{why_of};
ghost use Rattle.host_core.specs.declared.moves.HostSaid.TheVariants as said;

use crate::faults::TakeFault;
use crate::host::Host;
use crate::moves::{HostMove, HostSaid};
use crate::talk::{HostTalk, Saying};
use mpt_rules::OutOfMemory;
use mpt_trace::Entry;
use std::collections::VecDeque;

/// Plays the moves on the host, one call each, and gives what it said: at each move what the call says, then the entries
/// that were told and that nobody asked for. After OutOfMemory the moves before the one for which memory was wanting
/// stand, and what they said is lost.
pub fn play(host: &mut Host, moves: &[HostMove]) -> Result<HostTalk, OutOfMemory>
    ensures talk { IfOk result (λ talk. talk ≡ talk_from 0 host.old.host host.old.told moves.now) }
    ensures host { OnOk result (host.new.host ≡ after_moves host.old.host moves.now) }
    ensures told { OnOk result (host.new.told ≡ told_after host.old.told moves.now) }
    ensures stands { OnErr result (HasPlayed host.old host.new moves.now) }
{
    let mut sayings = VecDeque::new(host.alloc());
    for place in 0..moves.len() {
        host.play_move(place, &moves[place], &mut sayings)?;
    }
    Ok(HostTalk::new(sayings))
}

impl Host {
    // Plays a move, and takes the entries that are told. Where memory is wanting nothing changes.
    fn play_move(
        &mut self,
        place: usize,
        next: &HostMove,
        sayings: &mut VecDeque<Saying>,
    ) -> Result<(), OutOfMemory>
        ensures host { OnOk result (self.new.host ≡ (moved self.old.host next.now).part) }
        ensures told { OnOk result (self.new.told ≡ []) }
        ensures talk { OnOk result (talk_in sayings.new.items
            ≡ talk_in sayings.old.items ++ placed place (moved self.old.host next.now).answer (self.old.told ++ (moved self.old.host next.now).told)) }
        ensures stays { OnErr result (IsSame self.old self.new) }
    {
        sayings.try_reserve(1)?;
        let answer = self.make_move(next)?;
        let told = self.take_told();
        sayings.push_back_reserved(Saying {
            place,
            answer,
            told,
        });
        Ok(())
    }

    // Makes a move, and answers what the call says. Where memory is wanting nothing changes.
    fn make_move(&mut self, next: &HostMove) -> Result<Option<HostSaid>, OutOfMemory>
        ensures answer { IfOk result (λ answer. answer ≡ (moved self.old.host next.now).answer) }
        ensures host { OnOk result (self.new.host ≡ (moved self.old.host next.now).part) }
        ensures told { OnOk result (self.new.told ≡ self.old.told ++ (moved self.old.host next.now).told) }
        ensures stays { OnErr result (IsSame self.old self.new) }
    {
        match next {
            HostMove::Input(input) => {
                let refused = self.ask(input)?;
                Ok(told(refused))
            }
            HostMove::Up(item) => {
                let item = item.copy(self.alloc())?;
                strange(self.take_up(item))
            }
            HostMove::UpOn(queue, item) => {
                if *queue >= self.queues() {
                    return Ok(None);
                }
                let item = item.copy(self.alloc())?;
                strange(self.take_up_on(*queue, item))
            }
            HostMove::PutDown => Ok(self.put_down()),
        }
    }

    // Puts the next item on the lane down, if there is one.
    fn put_down(&mut self) -> Option<HostSaid>
        ensures answer { result ≡ (moved self.old.host HostMove.PutDown).answer }
        ensures host { self.new.host ≡ (moved self.old.host HostMove.PutDown).part }
        ensures told { self.new.told ≡ self.old.told }
    {
        self.front_down()?;
        Some(HostSaid::Down(self.sent_down()))
    }
}

// What is said of a refusal, if there is one.
fn told(refused: Option<Entry>) -> Option<HostSaid>
    ensures { result ≡ option_map said.Told refused }
{
    Some(HostSaid::Told(refused?))
}

// Why an item wasn't taken. Want of memory is no why.
fn strange(taken: Result<(), TakeFault>) -> Result<Option<HostSaid>, OutOfMemory>
    ensures said { IfOk result (λ strange. strange ≡ option_map said.Strange (why_of taken)) }
    ensures taken { IfOk result (λ strange. IsErr taken → IsSome strange) }
    ensures memory { OnErr result (IsErr taken) }
{
    match taken {
        Ok(()) => Ok(None),
        Err(TakeFault::Strange { why, .. }) => Ok(Some(HostSaid::Strange(why))),
        Err(TakeFault::NoRoom { .. }) => Err(OutOfMemory),
    }
}
