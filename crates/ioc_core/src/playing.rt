//! A list of moves played on a controller.
ghost use Rattle.std.specs.Prelude.{◌≡◌, ◌<◌, ◌++◌, IfOk, OnErr, OnOk, vec_capacity, vec_len};
ghost use Rattle.mpt_rules.specs.Ioc.Takes.{front_out, front_up_on};
ghost use Rattle.ioc_core.specs.Plays.{HasPlayed, after_moves, moved, placed, puts_out, puts_up, talk_from, told_by};

use crate::ioc::Ioc;
use crate::moves::{IocMove, IocSaid, IocTalk};
use mpt_rules::OutOfMemory;

/// Plays the moves on the controller, one call each, and gives what it put. After OutOfMemory the moves before the one
/// for which memory was wanting stand, and what they put is lost.
pub fn play(ioc: &mut Ioc, moves: &[IocMove]) -> Result<IocTalk, OutOfMemory>
    ensures talk { IfOk result (λ talk. talk ≡ talk_from 0 ioc.old.part moves.now) }
    ensures part { OnOk result (ioc.new.part ≡ after_moves ioc.old.part moves.now) }
    ensures told { OnOk result (ioc.new.told ≡ ioc.old.told ++ told_by ioc.old.part moves.now) }
    ensures stands { OnErr result (HasPlayed ioc.old ioc.new moves.now) }
{
    let mut talk = Vec::new(ioc.alloc);
    for place in 0..moves.len() {
        ioc.play_move(place, &moves[place], &mut talk)?;
    }
    Ok(IocTalk::new(talk))
}

impl Ioc {
    // Plays a move. Where memory is wanting nothing changes.
    fn play_move(
        &mut self,
        place: usize,
        next: &IocMove,
        talk: &mut Vec<(usize, IocSaid)>,
    ) -> Result<(), OutOfMemory>
        ensures part { OnOk result (self.new.part ≡ (moved self.old.part next.now).part) }
        ensures told { OnOk result (self.new.told ≡ self.old.told ++ (moved self.old.part next.now).told) }
        ensures talk { OnOk result (talk.new.items ≡ talk.old.items ++ placed place (moved self.old.part next.now).said) }
        ensures stays { OnErr result (self.new.part ≡ self.old.part) }
        ensures silent { OnErr result (self.new.told ≡ self.old.told) }
    {
        match next {
            IocMove::Down(item) => {
                let item = item.copy(self.alloc)?;
                self.take_down(item).map_err(|_| OutOfMemory)
            }
            IocMove::Back(item) => {
                let item = item.copy(self.alloc)?;
                self.take_back(item).map_err(|_| OutOfMemory)
            }
            IocMove::High => {
                self.step_high()?;
                Ok(())
            }
            IocMove::Normal => {
                self.step_normal()?;
                Ok(())
            }
            IocMove::PutUp => self.put_up(place, 0, talk),
            IocMove::PutUpOn(queue) => self.put_up(place, *queue, talk),
            IocMove::PutOut => self.put_out(place, talk),
        }
    }

    // Puts the front of a reply queue, if it is there and doesn't wait for a frame. Where memory is wanting nothing
    // changes.
    fn put_up(
        &mut self,
        place: usize,
        queue: u8,
        talk: &mut Vec<(usize, IocSaid)>,
    ) -> Result<(), OutOfMemory>
        ensures part { OnOk result (self.new.part ≡ (puts_up self.old.part queue (front_up_on self.old.part queue)).part) }
        ensures told { self.new.told ≡ self.old.told }
        ensures talk { OnOk result (talk.new.items
            ≡ talk.old.items ++ placed place (puts_up self.old.part queue (front_up_on self.old.part queue)).said) }
        ensures stays { OnErr result (self.new.part ≡ self.old.part) }
    {
        talk.try_reserve(1)?;
        if let Some(up) = self.front_up_on(queue)? {
            self.sent_up_on(queue);
            talk.push_reserved((place, IocSaid::Up(up)));
        }
        Ok(())
    }

    // Puts the front of the lane out, if there is one. Where memory is wanting nothing changes.
    fn put_out(&mut self, place: usize, talk: &mut Vec<(usize, IocSaid)>) -> Result<(), OutOfMemory>
        ensures part { OnOk result (self.new.part ≡ (puts_out self.old.part (front_out self.old.part)).part) }
        ensures told { self.new.told ≡ self.old.told }
        ensures talk { OnOk result (talk.new.items
            ≡ talk.old.items ++ placed place (puts_out self.old.part (front_out self.old.part)).said) }
        ensures stays { OnErr result (self.new.part ≡ self.old.part) }
    {
        talk.try_reserve(1)?;
        if self.front_out().is_some() {
            let out = self.sent_out();
            talk.push_reserved((place, IocSaid::Out(out)));
        }
        Ok(())
    }
}
