//! What the host posts and returns.
ghost use Rattle.std.specs.Prelude.{◌≡◌, ◌<◌, ◌++◌, ◌∷◌, [], IfSome, IsTrue, false, is_some};
ghost use Rattle.mpt_wire.specs.Messages.Fields.{smid_in};
ghost use Rattle.mpt_rules.specs.Ioc.Posts.{frame_here, frame_near, ioc_takes_return, is_frame_address, posts_as, posts_if, with_post_queued};
ghost use Rattle.mpt_rules.specs.Ioc.Tables.{is_at_fabric, is_unanswered};
ghost use Rattle.mpt_rules.specs.Ioc.Takes.{posts_if_operational, returns_if_operational};
ghost use Rattle.ioc_tables.specs.Queues.{is_of_kind};

use crate::ioc::Ioc;
use ioc_requests::kind_of;
use ioc_tables::{is_of_kind, smid_of};
use mpi_names::{FRAME_BYTES, REPLY_FRAMES, REPLY_FRAMES_ADDRESS};
use mpi_rings::PostKind;
use mpt_rules::Post;
use mpt_trace::Smid;

// The codes of FAULT: a post of no kind or whose identifier isn't of its kind's class; one whose identifier the
// controller still has to answer; a return of what is no frame, or of a frame that the controller has.
const BAD_POST: u16 = 3;

const IDENTIFIER_IN_USE: u16 = 4;

const BAD_RETURN: u16 = 5;

impl Ioc {
    /// The host posts a request, which is passed over where the controller isn't OPERATIONAL. It takes no memory.
    pub(crate) fn take_post(&mut self, post: Post)
        ensures part { self.new.part ≡ posts_if_operational self.old.part post.descriptor post.frame post.payload }
        ensures told { self.new.told ≡ self.old.told }
    {
        if self.is_operational() {
            match kind_of(post.descriptor) {
                Some(kind) => self.take_post_as(kind, post),
                None => self.fault(BAD_POST),
            }
        }
    }

    // A post of a known kind is queued, or the controller stops.
    fn take_post_as(&mut self, kind: PostKind, post: Post)
        ensures part { self.new.part ≡ posts_as self.old.part post kind }
        ensures told { self.new.told ≡ self.old.told }
    {
        if !is_of_kind(kind, &post) {
            self.fault(BAD_POST);
        } else if self.is_unanswered(smid_of(&post)) {
            self.fault(IDENTIFIER_IN_USE);
        } else {
            self.queue_post(kind, post);
        }
    }

    // A post goes behind those of its queue.
    fn queue_post(&mut self, kind: PostKind, post: Post)
        requires class { IsTrue (is_of_kind kind post) }
        requires once { is_unanswered self.old.part (smid_in post.descriptor) ≡ false }
        ensures part { self.new.part ≡ with_post_queued self.old.part post kind }
        ensures told { self.new.told ≡ self.old.told }
    {
        self.queues.push(kind, post);
    }

    // Whether the identifier's post was taken and isn't answered.
    fn is_unanswered(&self, smid: Smid) -> bool
        ensures { result ≡ is_unanswered self.now.part smid }
    {
        self.queues.is_queued(smid) || self.is_at_fabric(smid)
    }

    /// Whether a request of the identifier is at the fabric, or waits for what is there.
    pub(crate) fn is_at_fabric(&self, smid: Smid) -> bool
        ensures { result ≡ is_at_fabric self.now.part smid }
    {
        self.request_at(smid).is_some() || self.lists.has_held(smid)
    }

    /// The host returns a reply frame, which is passed over where the controller isn't OPERATIONAL. It takes no memory.
    pub(crate) fn take_return(&mut self, address: u32)
        ensures part { self.new.part ≡ returns_if_operational self.old.part address }
        ensures told { self.new.told ≡ self.old.told }
    {
        if self.is_operational() {
            self.take_frame(address);
        }
    }

    // A reply frame that the controller doesn't have goes behind the others, or the controller stops.
    fn take_frame(&mut self, address: u32)
        ensures part { self.new.part ≡ ioc_takes_return self.old.part address }
        ensures told { self.new.told ≡ self.old.told }
    {
        match frame_of(address) {
            Some(frame) if !self.frame_here(frame) => self.give_back(frame),
            _ => self.fault(BAD_RETURN),
        }
    }

    // A reply frame goes behind the others.
    fn give_back(&mut self, frame: u8)
        requires known { frame < 64 }
        requires absent { frame_here self.old.part frame ≡ false }
        ensures part { self.new.part ≡ record self.old.part { ring = self.old.part.ring ++ frame ∷ [] } }
        ensures told { self.new.told ≡ self.old.told }
    {
        self.free.give(frame);
    }

    /// Whether the reply free ring has the frame.
    pub fn frame_here(&self, frame: u8) -> bool
        ensures { result ≡ frame_here self.now.part frame }
    {
        self.free.has(frame)
    }
}

// The reply frame with this address. None exactly where none has it.
fn frame_of(address: u32) -> Option<u8>
    ensures there { is_frame_address address ≡ is_some result }
    ensures frame { IfSome result (λ frame. frame ≡ frame_near address) }
    ensures small { IfSome result (λ frame. frame < 64) }
{
    let frame = address.saturating_sub(REPLY_FRAMES_ADDRESS) / FRAME_BYTES as u32;
    if frame < REPLY_FRAMES as u32 && REPLY_FRAMES_ADDRESS + FRAME_BYTES as u32 * frame == address {
        Some(frame as u8)
    } else {
        None
    }
}
