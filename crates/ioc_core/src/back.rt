//! What the controller does with what the fabric tells.
ghost use Rattle.std.specs.Prelude.{◌≡◌, ◌≤◌, ◌+◌, ◌++◌, IfErr, OnErr, OnOk, length};
ghost use Rattle.mpt_rules.specs.Ioc.Back.{after_linked, hears, is_heard_in, takes_aborted, takes_back, takes_calm, takes_cleared, takes_discovered, takes_end, takes_result};
ghost use Rattle.mpt_rules.specs.Ioc.Parts.{state_of};
ghost use Rattle.mpt_rules.specs.Ioc.Tables.{request_at};
ghost use Rattle.ioc_tables.specs.Requests.{enabling_smid};
ghost use Rattle.ioc_core.specs.Hearing.{discovered};

use crate::commands::scsi_ended;
use crate::ioc::Ioc;
use ioc_replies::result_said;
use ioc_requests::moved_by;
use mpi_doorbell::IocState;
use mpi_names::MPI2_FUNCTION_PORT_ENABLE;
use mpt_messages::IocReply;
use mpt_rules::{
    AtFabric, IOC_STATUS_SCSI_DEVICE_NOT_THERE, IOC_STATUS_SCSI_TASK_TERMINATED,
    IOC_STATUS_SUCCESS, NoRoom, OutOfMemory, Said, Waiting,
};
use mpt_trace::{Back, Smid, Tag};
use scsi_disk::ScsiResult;

// How many items an item of the fabric makes at most, besides the answers to target resets that wait.
const BACK_ROOM: usize = 2;

impl Ioc {
    /// Takes an item of the lane back. Where memory is wanting the item is handed back, and nothing changes.
    pub fn take_back(&mut self, item: Back) -> Result<(), NoRoom<Back>>
        ensures part { OnOk result (self.new.part ≡ (takes_back self.old.part item).part) }
        ensures told { OnOk result (self.new.told ≡ self.old.told ++ (takes_back self.old.part item).entries) }
        ensures stays { OnErr result (self.new.part ≡ self.old.part) }
        ensures silent { OnErr result (self.new.told ≡ self.old.told) }
        ensures returned { IfErr result (λ e. e.item ≡ item) }
    {
        if self.make_room_to_hear().is_err() {
            return Err(NoRoom { item });
        }
        if self.is_heard(&item) {
            self.hear(item)
        } else {
            Ok(())
        }
    }

    // Makes room for what an item of the fabric makes.
    fn make_room_to_hear(&mut self) -> Result<(), OutOfMemory>
        ensures room { OnOk result (2 + length self.new.part.held ≤ self.new.room) }
        ensures part { self.new.part ≡ self.old.part }
        ensures told { self.new.told ≡ self.old.told }
    {
        let Some(count) = self.lists.held_count().checked_add(BACK_ROOM) else {
            return Err(OutOfMemory);
        };
        self.make_room(count)
    }

    // Whether the item is heard: a link and calm in every state, the rest while the controller is OPERATIONAL.
    fn is_heard(&self, item: &Back) -> bool
        ensures { result ≡ is_heard_in (state_of self.now.part) item.now }
    {
        matches!(item, Back::Linked { .. } | Back::Calm) || self.is_operational()
    }

    // What is done with an item that is heard. Where memory is wanting the item is handed back, and nothing changes.
    fn hear(&mut self, item: Back) -> Result<(), NoRoom<Back>>
        requires { 2 + length self.old.part.held ≤ self.old.room }
        ensures part { OnOk result (self.new.part ≡ (hears self.old.part item).part) }
        ensures told { OnOk result (self.new.told ≡ self.old.told ++ (hears self.old.part item).entries) }
        ensures stays { OnErr result (self.new.part ≡ self.old.part) }
        ensures silent { OnErr result (self.new.told ≡ self.old.told) }
        ensures returned { IfErr result (λ e. e.item ≡ item) }
    {
        match item {
            Back::Result { tag, result: done } => self.take_result(tag, done),
            Back::Gone { tag } => self.take_end(tag, IOC_STATUS_SCSI_DEVICE_NOT_THERE),
            Back::Terminated { tag } => self.take_end(tag, IOC_STATUS_SCSI_TASK_TERMINATED),
            Back::Aborted { smid, found } => self.take_aborted(smid, found),
            Back::Cleared { smid, count } => self.take_cleared(smid, count),
            Back::Discovered => self.take_discovered(),
            Back::Linked { generation } => self.link(generation),
            Back::Calm => self.take_calm(),
            Back::Plugged {
                address,
                plug,
                expander,
                phy,
            } => {
                let disk = Waiting {
                    address,
                    plug,
                    expander,
                    phy,
                };
                return match self.plug(disk) {
                    Ok(()) => Ok(()),
                    Err(_) => Err(NoRoom { item }),
                };
            }
            Back::Unplugged { address, .. } => {
                return match self.unplug(address) {
                    Ok(()) => Ok(()),
                    Err(_) => Err(NoRoom { item }),
                };
            }
        }
        Ok(())
    }

    // ---- commands

    // A command was performed. A tag that has no SCSI IO at the fabric is passed over.
    fn take_result(&mut self, tag: Tag, done: ScsiResult)
        requires { 1 + length self.old.part.held ≤ self.old.room }
        ensures part { self.new.part ≡ takes_result self.old.part tag done (request_at self.old.part tag) }
        ensures told { self.new.told ≡ self.old.told }
    {
        if let Some(
            AtFabric::Command {
                handle,
                queue,
                len,
                written,
            },
        ) = self.request_at(tag)
        {
            let moved = moved_by(written, &done);
            let answer = result_said(tag, handle, len, moved, done);
            self.end_command(tag, handle, queue, answer);
        }
    }

    // A command ended at the fabric without being performed. A tag that has no SCSI IO there is passed over.
    fn take_end(&mut self, tag: Tag, status: u16)
        requires { 1 + length self.old.part.held ≤ self.old.room }
        ensures part { self.new.part ≡ takes_end self.old.part tag status (request_at self.old.part tag) }
        ensures told { self.new.told ≡ self.old.told }
    {
        if let Some(AtFabric::Command { handle, queue, .. }) = self.request_at(tag) {
            let answer = scsi_ended(self.alloc, tag, handle, status);
            self.end_command(tag, handle, queue, answer);
        }
    }

    // ---- task management and port enable

    // An abort is done. An identifier that has no abort at the fabric is passed over.
    fn take_aborted(&mut self, smid: Smid, found: bool)
        requires { 1 ≤ self.old.room }
        ensures part { self.new.part ≡ takes_aborted self.old.part smid found (request_at self.old.part smid) }
        ensures told { self.new.told ≡ self.old.told }
    {
        if let Some(AtFabric::Abort { handle }) = self.request_at(smid) {
            self.take_request(smid);
            self.end_abort(smid, handle, u32::from(found));
        }
    }

    // A target reset is done. An identifier that has no target reset at the fabric is passed over.
    fn take_cleared(&mut self, smid: Smid, count: u32)
        requires { 1 ≤ self.old.room }
        ensures part { self.new.part ≡ takes_cleared self.old.part smid count (request_at self.old.part smid) }
        ensures told { self.new.told ≡ self.old.told }
    {
        if let Some(AtFabric::TargetReset { handle }) = self.request_at(smid) {
            self.take_request(smid);
            self.end_target_reset(smid, handle, IOC_STATUS_SUCCESS, count);
        }
    }

    // Every plugged disk was named. Without a port enable that waits for it this is passed over.
    fn take_discovered(&mut self)
        requires { 1 ≤ self.old.room }
        ensures part { self.new.part ≡ discovered self.old.part }
        ensures told { self.new.told ≡ self.old.told }
    {
        if let Some(smid) = self.requests.port_enable() {
            self.take_request(smid);
            let reply = IocReply::Plain {
                function: MPI2_FUNCTION_PORT_ENABLE,
                status: IOC_STATUS_SUCCESS,
            };
            self.answer(smid, reply);
        }
    }

    // ---- links

    // The fabric has linked: a reset of this generation is over.
    fn link(&mut self, generation: u32)
        ensures part { self.new.part ≡ after_linked self.old.part generation }
        ensures told { self.new.told ≡ self.old.told }
    {
        if matches!(self.state(), IocState::Reset) && generation == self.generation {
            self.door.linked();
        }
    }

    // The fabric has nothing more to tell, which the host is told on queue 0.
    fn take_calm(&mut self)
        requires { 1 ≤ self.old.room }
        ensures part { self.new.part ≡ takes_calm self.old.part }
        ensures told { self.new.told ≡ self.old.told }
    {
        if !matches!(self.state(), IocState::Fault(_)) {
            self.say_on(0, Said::Calm);
        }
    }
}
