//! What comes up and is strange: the checks of each kind of item, in the order in which they are made.
ghost use Rattle.std.specs.Prelude.{◌≡◌, ◌≢◌, OnOk};
ghost use Rattle.mpt_wire.specs.Messages.Fields.{smid_in};
ghost use Rattle.mpt_wire.specs.Machine.Causes.{is_resetting};
ghost use Rattle.mpt_rules.specs.Host.Handshakes.{why_door};
ghost use Rattle.mpt_rules.specs.Host.Strange.{bad_mark, no_read, not_absent, not_open, not_returned, why_mark, why_reply, why_strange, why_value};
ghost use Rattle.host_reading.specs.Checks.{why_in};

use super::Host;
use host_reading::{
    address_of_frame, check_answer, check_descriptor, check_frame, check_handshake,
    check_queue_of_mark, check_queue_of_reply, check_queue_of_value, check_status,
    first_not_absent, refuse_where, smid_of_reply,
};
use host_tables::{frame_of, is_frame_address, last_step};
use mpi_doorbell::DoorStep;
use mpt_rules::Why;
use mpt_trace::{HostState, Smid, Up};

impl Host {
    // An item that comes on a queue isn't strange, or else the first why that holds.
    pub(crate) fn check_up(&self, queue: u8, item: &Up) -> Result<(), Why>
        ensures { why_in result ≡ why_strange self.now.host queue item.now }
    {
        match item {
            Up::Value(value) => self.check_value(queue, *value),
            Up::Reply {
                descriptor,
                frame,
                page,
                ..
            } => self.check_reply(queue, *descriptor, frame, page.as_slice()),
            Up::Mark { generation } => self.check_mark(queue, *generation),
            Up::Calm => Ok(()),
        }
    }

    // A value comes on queue 0, is awaited, and isn't refused at the doorbell.
    fn check_value(&self, queue: u8, value: u32) -> Result<(), Why>
        ensures { why_in result ≡ why_value self.now.host queue value }
    {
        check_queue_of_value(queue)?;
        refuse_where(!self.reading, Why::NoRead)?;
        self.check_door(value)
    }

    // The machine at the doorbell doesn't refuse the value, and takes the reply of a handshake that is
    // done by it. Where there is no machine nobody judges the value.
    fn check_door(&self, value: u32) -> Result<(), Why>
        ensures { why_in result ≡ why_door self.now.host self.now.host.machine value }
    {
        let Some(door) = self.machine.copy() else {
            return Ok(());
        };
        match last_step(door, value) {
            DoorStep::Refused { step, value } => Err(Why::DoorRefused { step, value }),
            DoorStep::Done { length, bytes } => {
                check_handshake(
                    self.stage,
                    self.rings.count(),
                    &bytes[..usize::from(length)],
                )
            }
            DoorStep::Read { .. } | DoorStep::Write { .. } => Ok(()),
        }
    }

    // A mark comes on a queue above 0, and is one of the reset that is going on, the first of its queue.
    fn check_mark(&self, queue: u8, generation: u32) -> Result<(), Why>
        ensures { why_in result ≡ why_mark self.now.host queue generation }
    {
        check_queue_of_mark(queue)?;
        let is_bad = !self.is_resetting()
            || generation != self.asked
            || self.rings.is_marked(queue);
        refuse_where(is_bad, Why::BadMark(generation))
    }

    // A reply comes on the queue of its identifier, by a descriptor that goes with its frame, in a
    // frame that the host returned, which stands for a reply to what was asked under the identifier,
    // with a status that the host takes, and names no handle as added that isn't absent.
    fn check_reply(
        &self,
        queue: u8,
        descriptor: u64,
        frame: &Option<[u8; 128]>,
        page: &[u8],
    ) -> Result<(), Why>
        ensures { why_in result ≡ why_reply self.now.host queue descriptor frame.now page.now }
    {
        let smid = smid_of_reply(descriptor);
        let asked = self.pool.get(smid);
        check_queue_of_reply(queue, descriptor)?;
        check_descriptor(descriptor, frame)?;
        self.check_returned(descriptor, frame)?;
        check_frame(frame)?;
        self.check_open(smid)?;
        check_answer(asked, frame, page)?;
        check_status(asked, frame)?;
        self.check_absent(smid, frame)
    }

    // A frame is one that the host returned, and its return was put.
    fn check_returned(&self, descriptor: u64, frame: &Option<[u8; 128]>) -> Result<(), Why>
        ensures { why_in result ≡ not_returned self.now.host descriptor frame.now }
    {
        if frame.is_none() {
            return Ok(());
        }
        let address = address_of_frame(descriptor);
        let is_returned = is_frame_address(address) && self.frames.is_away(frame_of(address));
        refuse_where(!is_returned, Why::NotReturned(address))
    }

    // The identifier is open, or is none, as an event has it.
    fn check_open(&self, smid: Smid) -> Result<(), Why>
        ensures { why_in result ≡ not_open self.now.host smid }
    {
        let is_closed = smid != 0 && self.pool.get(smid).is_none();
        refuse_where(is_closed, Why::NotOpen(smid))
    }

    // While no reset is going on, an event names no disk's handle as added that isn't absent.
    fn check_absent(&self, smid: Smid, frame: &Option<[u8; 128]>) -> Result<(), Why>
        ensures { why_in result ≡ not_absent self.now.host smid frame.now }
    {
        match frame {
            Some(frame) if smid == 0 && !self.is_resetting() => {
                match first_not_absent(&self.phases, frame) {
                    Some(handle) => Err(Why::NotAbsent(handle)),
                    None => Ok(()),
                }
            }
            _ => Ok(()),
        }
    }

    // Whether a reset is going on.
    pub(crate) fn is_resetting(&self) -> bool
        ensures { result ≡ is_resetting self.now.host.mode }
    {
        matches!(self.mode, HostState::Resetting)
    }
}
