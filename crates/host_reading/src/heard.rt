//! A reply that the host hears.
ghost use Rattle.std.specs.Prelude.{◌≡◌, ◌+◌, ◌*◌, ◌<◌, ◌≤◌, option_map};
ghost use Rattle.mpt_wire.specs.Messages.Fields.{change_at, event_context_in, event_in, frame_address_in, smid_in, termination_count_in};
ghost use Rattle.mpt_rules.specs.Host.Replies.{abort_outcome, address_read, ended, heard_of, reply_bytes};
ghost use Rattle.mpt_rules.specs.Host.Returns.{frame_of as frame_at};
ghost use Rattle.host_reading.specs.Changes.{IsCount};

use crate::change::{Change, change_at, count_changes};
use crate::descriptor::{address_of_frame, smid_of_reply};
use crate::outcome::{abort_outcome, outcome_of};
use crate::page::address_read;
use crate::reply::{bytes_of_reply, event_context_of, event_of, termination_count};
use host_tables::frame_of;
use mpt_trace::{AbortOutcome, Address, Outcome, Smid};
use scsi_disk::Bytes;
use std::marker::Model;

/// A reply as it came up: its descriptor, its frame where it has one, and the data and the sense data
/// that came with it. Where it has no frame each field of the frame reads as 0.
#[derive(Drop)]
pub struct HeardReply {
    descriptor: u64,
    frame: Option<[u8; 128]>,
    page: Bytes,
    sense: Bytes,
}

impl Model for HeardReply {
    ghost use Rattle.mpt_rules.specs.Host.Replies.{Heard, heard_of};

    ghost Value = { Heard };

    ghost view = { λ r. heard_of r.descriptor r.frame r.page r.sense };
}

impl HeardReply {
    /// These came up together.
    pub fn new(descriptor: u64, frame: Option<[u8; 128]>, page: Bytes, sense: Bytes) -> HeardReply
        ensures { result ≡ heard_of descriptor frame page sense }
    {
        HeardReply {
            descriptor,
            frame,
            page,
            sense,
        }
    }

    /// The reply descriptor, as the little-endian number of its bytes.
    pub fn descriptor(&self) -> u64
        ensures { result ≡ self.now.descriptor }
    {
        self.descriptor
    }

    /// The identifier that it answers, 0 for an event.
    pub fn smid(&self) -> Smid
        ensures { result ≡ smid_in self.now.descriptor }
    {
        smid_of_reply(self.descriptor)
    }

    /// The number of the frame that it came in.
    pub fn frame(&self) -> Option<u32>
        ensures { result ≡ option_map (λ bytes. frame_at (frame_address_in self.now.descriptor)) self.now.frame }
    {
        match self.frame {
            Some(_) => Some(frame_of(address_of_frame(self.descriptor))),
            None => None,
        }
    }

    /// How the SCSI IO ended that it answers.
    pub fn into_outcome(self) -> Outcome
        ensures { result ≡ ended self.frame self.page self.sense }
    {
        let frame = self.frame;
        outcome_of(&frame, self.page, self.sense)
    }

    /// How the abort ended that it answers.
    pub fn abort_outcome(&self) -> AbortOutcome
        ensures { result ≡ abort_outcome (reply_bytes self.now) }
    {
        abort_outcome(&bytes_of_reply(&self.frame))
    }

    /// How many commands the task management request terminated that it answers.
    pub fn termination_count(&self) -> u32
        ensures { result ≡ termination_count_in (reply_bytes self.now) }
    {
        termination_count(&bytes_of_reply(&self.frame))
    }

    /// The disk's address where it answers a page read that succeeded.
    pub fn address(&self) -> Option<Address>
        ensures { result ≡ address_read (reply_bytes self.now) self.now.page }
    {
        address_read(&bytes_of_reply(&self.frame), self.page.as_slice())
    }

    /// Which event it tells.
    pub fn event(&self) -> u16
        ensures { result ≡ event_in (reply_bytes self.now) }
    {
        event_of(&bytes_of_reply(&self.frame))
    }

    /// The context of the event that it tells, for its acknowledgement.
    pub fn event_context(&self) -> u32
        ensures { result ≡ event_context_in (reply_bytes self.now) }
    {
        event_context_of(&bytes_of_reply(&self.frame))
    }

    /// How many changes it has room for and names: those of a topology change list, and none of any
    /// other event.
    pub fn count_changes(&self) -> u8
        ensures most { result ≤ 22 }
        ensures count { IsCount result (reply_bytes self.now) }
    {
        count_changes(&bytes_of_reply(&self.frame))
    }

    /// The change at a place, from 0, in the list of a topology event.
    pub fn change_at(&self, place: u8) -> Change
        requires { place < 22 }
        ensures { result ≡ change_at (reply_bytes self.now) (0x28 + 4 * place) }
    {
        change_at(&bytes_of_reply(&self.frame), place)
    }
}
