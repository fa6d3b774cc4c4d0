//! The host's reply frames: how one is returned.
ghost use Rattle.std.specs.Prelude.{◌≡◌, ◌≤◌, ◌<◌, ◌+◌};
ghost use Rattle.mpt_rules.specs.Host.Returns.{returns_all, with_frame_back, with_return};

use super::Host;
use host_tables::{REPLY_FRAMES, frame_address};
use mpt_rules::HostFrame;
use mpt_trace::Down;

impl Host {
    // The return of a frame goes into the outbox, with the new index of the reply free ring.
    pub(crate) fn return_frame(&mut self, frame: u32)
        requires frame { frame < 64 }
        requires room { 1 ≤ self.old.room }
        ensures host { self.new.host ≡ with_return self.old.host frame }
        ensures told { self.new.told ≡ self.old.told }
        ensures room { self.old.room ≤ self.new.room + 1 }
        ensures numbers { self.new.has_number_room ≡ self.old.has_number_room }
        ensures aborts { self.new.has_abort_room ≡ self.old.has_abort_room }
    {
        self.frames.set(frame, HostFrame::Out);
        let index = self.frames.count_return();
        self.lists.push_down(Down::Return {
            address: frame_address(frame),
            index,
        });
    }

    // The frame of a reply that was taken is returned, or from the write on that begins a reset stays
    // the host's.
    pub(crate) fn take_frame_back(&mut self, frame: u32)
        requires frame { frame < 64 }
        requires room { 1 ≤ self.old.room }
        ensures host { self.new.host ≡ with_frame_back self.old.host frame }
        ensures told { self.new.told ≡ self.old.told }
        ensures room { self.old.room ≤ self.new.room + 1 }
        ensures numbers { self.new.has_number_room ≡ self.old.has_number_room }
        ensures aborts { self.new.has_abort_room ≡ self.old.has_abort_room }
    {
        if self.returning {
            self.return_frame(frame);
        } else {
            self.frames.set(frame, HostFrame::Held);
        }
    }

    // All frames are returned, one after the other.
    pub(crate) fn return_all(&mut self)
        requires { 64 ≤ self.old.room }
        ensures host { self.new.host ≡ returns_all self.old.host }
        ensures told { self.new.told ≡ self.old.told }
        ensures room { self.old.room ≤ self.new.room + 64 }
        ensures numbers { self.new.has_number_room ≡ self.old.has_number_room }
        ensures aborts { self.new.has_abort_room ≡ self.old.has_abort_room }
    {
        for frame in 0..REPLY_FRAMES as u32 {
            self.return_frame(frame);
        }
    }
}
