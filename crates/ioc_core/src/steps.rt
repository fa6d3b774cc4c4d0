//! The controller's work steps: each processes the front of one of its queues.
ghost use Rattle.std.specs.Prelude.{◌≡◌, ◌≤◌, ◌++◌, Some, IfOk, IfSome, IsSome, OnErr, OnOk, option_copied, slice_get};
ghost use Rattle.mpt_wire.specs.Messages.Fields.{smid_in};
ghost use Rattle.mpt_rules.specs.Ioc.Steps.{steps_high, steps_normal};
ghost use Rattle.ioc_requests.specs.declared.asked.PostRead.TheVariants as read;
ghost use Rattle.ioc_tables.specs.Queues.{IsIdentifier};
ghost use Rattle.ioc_core.specs.Working.{IsFront, posts_in, steps_on, without_front};

use crate::ioc::Ioc;
use ioc_requests::{Asked, PostRead, read_asked};
use ioc_tables::smid_of;
use mpt_rules::{OutOfMemory, Post};
use mpt_trace::Smid;

// How many items a step makes at most.
const STEP_ROOM: usize = 4;

/// One of the two queues of posts.
#[derive(Clone, Copy)]
pub(crate) enum PostQueue {
    /// The queue of high priority posts.
    High,
    /// The queue of the others.
    Normal,
}

impl Ioc {
    /// Processes the front of the high queue. False exactly where the queue is empty. Where memory is wanting nothing
    /// changes.
    pub fn step_high(&mut self) -> Result<bool, OutOfMemory>
        ensures answer { IfOk result (λ worked. worked ≡ (steps_high self.old.part).answer) }
        ensures part { OnOk result (self.new.part ≡ (steps_high self.old.part).part) }
        ensures told { OnOk result (self.new.told ≡ self.old.told ++ (steps_high self.old.part).told) }
        ensures stays { OnErr result (self.new.part ≡ self.old.part) }
        ensures silent { OnErr result (self.new.told ≡ self.old.told) }
    {
        self.step(PostQueue::High)
    }

    /// Processes the front of the normal queue. False exactly where the queue is empty. Where memory is wanting nothing
    /// changes.
    pub fn step_normal(&mut self) -> Result<bool, OutOfMemory>
        ensures answer { IfOk result (λ worked. worked ≡ (steps_normal self.old.part).answer) }
        ensures part { OnOk result (self.new.part ≡ (steps_normal self.old.part).part) }
        ensures told { OnOk result (self.new.told ≡ self.old.told ++ (steps_normal self.old.part).told) }
        ensures stays { OnErr result (self.new.part ≡ self.old.part) }
        ensures silent { OnErr result (self.new.told ≡ self.old.told) }
    {
        self.step(PostQueue::Normal)
    }

    // Processes the front of a queue. False exactly where the queue is empty. Where memory is wanting nothing changes.
    fn step(&mut self, queue: PostQueue) -> Result<bool, OutOfMemory>
        ensures answer { IfOk result (λ worked. worked ≡ (steps_on queue self.old.part).answer) }
        ensures part { OnOk result (self.new.part ≡ (steps_on queue self.old.part).part) }
        ensures told { OnOk result (self.new.told ≡ self.old.told ++ (steps_on queue self.old.part).told) }
        ensures stays { OnErr result (self.new.part ≡ self.old.part) }
        ensures silent { OnErr result (self.new.told ≡ self.old.told) }
    {
        self.make_room(STEP_ROOM)?;
        let Some(post) = self.front(queue) else {
            return Ok(false);
        };
        let smid = smid_of(post);
        let read = read_asked(post);
        self.serve(queue, smid, read)?;
        Ok(true)
    }

    // The front of a queue, which stays. None exactly where it is empty.
    fn front(&self, queue: PostQueue) -> Option<&Post>
        ensures front { option_copied result ≡ slice_get (posts_in queue self.now.part) 0 }
        ensures identifier { IfSome result (λ p. IsIdentifier (smid_in p.now.descriptor)) }
    {
        match queue {
            PostQueue::High => self.queues.front_high(),
            PostQueue::Normal => self.queues.front_normal(),
        }
    }

    // Takes the front of a queue, which there is.
    fn take_front(&mut self, queue: PostQueue) -> Post
        requires { IsSome (slice_get (posts_in queue self.old.part) 0) }
        ensures value { slice_get (posts_in queue self.old.part) 0 ≡ Some result }
        ensures part { self.new.part ≡ without_front queue self.old.part }
        ensures told { self.new.told ≡ self.old.told }
        ensures room { self.new.room ≡ self.old.room }
    {
        let front = match queue {
            PostQueue::High => self.queues.pop_high(),
            PostQueue::Normal => self.queues.pop_normal(),
        };
        front.unwrap()
    }

    // The front of a queue, which has this identifier and in which this is read, is taken and processed. Where memory is
    // wanting nothing changes.
    fn serve(&mut self, queue: PostQueue, smid: Smid, read: PostRead) -> Result<(), OutOfMemory>
        requires room { 4 ≤ self.old.room }
        requires front { IsFront queue self.old.part smid read }
        ensures part { OnOk result (self.new.part ≡ (steps_on queue self.old.part).part) }
        ensures told { OnOk result (self.new.told ≡ self.old.told ++ (steps_on queue self.old.part).told) }
        ensures stays { OnErr result (self.new.part ≡ self.old.part) }
        ensures silent { OnErr result (self.new.told ≡ self.old.told) }
    {
        match read {
            PostRead::Kindless => {
                self.take_front(queue);
                Ok(())
            }
            PostRead::Refused(kind, fault) => {
                let post = self.take_front(queue);
                self.refuse(&post, kind, fault);
                Ok(())
            }
            PostRead::Asks(asked) => self.serve_asked(queue, smid, asked),
        }
    }

    // The front of a queue, which has this identifier and asks this, is taken and processed. Where memory is wanting
    // nothing changes.
    fn serve_asked(&mut self, queue: PostQueue, smid: Smid, asked: Asked) -> Result<(), OutOfMemory>
        requires room { 4 ≤ self.old.room }
        requires front { IsFront queue self.old.part smid (read.Asks asked) }
        ensures part { OnOk result (self.new.part ≡ (steps_on queue self.old.part).part) }
        ensures told { OnOk result (self.new.told ≡ self.old.told ++ (steps_on queue self.old.part).told) }
        ensures stays { OnErr result (self.new.part ≡ self.old.part) }
        ensures silent { OnErr result (self.new.told ≡ self.old.told) }
    {
        match asked {
            Asked::Control(ask) => {
                self.work_control(smid, &ask)?;
                self.take_front(queue);
            }
            Asked::Page(ask) => {
                let page = self.page_for(&ask)?;
                let post = self.take_front(queue);
                self.answer_config(&post, &ask, page);
            }
            Asked::Command(io) => {
                let post = self.take_front(queue);
                self.work_scsi(post, &io);
            }
            Asked::Task(ask) => {
                let post = self.take_front(queue);
                self.work_task(&post, &ask);
            }
            Asked::Enable => {
                let post = self.take_front(queue);
                self.work_enable(&post);
            }
            Asked::Notification(ask) => {
                let post = self.take_front(queue);
                self.work_notification(&post, &ask);
            }
            Asked::Ack(ack) => {
                let post = self.take_front(queue);
                self.work_ack(&post, &ack);
            }
        }
        Ok(())
    }
}
