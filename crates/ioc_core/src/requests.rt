//! The other requests of the default kind: event notification and acknowledgement, port enable, remove device; and the
//! answer to a frame that stands for no request.
ghost use Rattle.std.specs.Prelude.{◌≡◌, ◌≤◌, ◌+◌, ◌==◌, ◌&&◌, ◌++◌, ◌∷◌, IsTrue, OnErr, OnOk};
ghost use Rattle.std.specs.FinSet as set;
ghost use Rattle.event_msgs.specs.EventAck.{EventAckStands};
ghost use Rattle.event_msgs.specs.EventAsk.{EventAskStands};
ghost use Rattle.ioc_msgs.specs.UnitControl.{UnitControlStands};
ghost use Rattle.mpt_messages.specs.declared.ioc_reply.IocReply.TheVariants as reply;
ghost use Rattle.mpt_wire.specs.Messages.Fields.{smid_in, topology_change_list};
ghost use Rattle.mpt_rules.specs.Ioc.Replies.{ioc_answers};
ghost use Rattle.mpt_rules.specs.Ioc.Requests.{enables, works_ack, works_enable, works_notification, works_unit_control};
ghost use Rattle.mpt_rules.specs.Ioc.Steps.{refuses};
ghost use Rattle.mpt_rules.specs.Ioc.Tables.{binding_of};
ghost use Rattle.mpt_rules.specs.declared.post.Post.{Post};
ghost use Rattle.ioc_tables.specs.Bindings.{is_gone};
ghost use Rattle.ioc_tables.specs.Queues.{IsIdentifier};
ghost use Rattle.ioc_core.specs.Removing.{control_refusal, removes_for};

use crate::ioc::Ioc;
use event_msgs::{EventAck, EventAsk};
use ioc_msgs::UnitControl;
use ioc_replies::framed;
use ioc_requests::{function_byte, refusal_status};
use ioc_tables::smid_of;
use mpi_names::{
    MPI2_EVENT_SAS_TOPOLOGY_CHANGE_LIST, MPI2_FUNCTION_EVENT_ACK, MPI2_FUNCTION_PORT_ENABLE,
    MPI2_SAS_OP_REMOVE_DEVICE,
};
use mpi_rings::PostKind;
use mpt_messages::{IocReply, MsgFault};
use mpt_rules::{
    AtFabric, Binding, IOC_STATUS_BUSY, IOC_STATUS_INVALID_FIELD, IOC_STATUS_INVALID_STATE,
    IOC_STATUS_SCSI_INVALID_DEVHANDLE, IOC_STATUS_SUCCESS, OutOfMemory, Post,
};
use mpt_trace::{Entry, Handle, Out, Smid};

// The bit of EventMasks0 that holds topology events back.
const TOPOLOGY_MASK: u32 = 1 << MPI2_EVENT_SAS_TOPOLOGY_CHANGE_LIST;

impl Ioc {
    /// A frame that stands for no request of its kind is answered by a reply with a header alone.
    pub(crate) fn refuse(&mut self, post: &Post, kind: PostKind, fault: MsgFault)
        requires { 1 ≤ self.old.room }
        ensures part { self.new.part ≡ refuses self.old.part post.now kind fault }
        ensures told { self.new.told ≡ self.old.told }
    {
        let queue = match kind {
            PostKind::ScsiIo => self.queue_named(post.descriptor),
            PostKind::HighPriority | PostKind::Default => 0,
        };
        let reply = IocReply::Plain {
            function: function_byte(&post.frame),
            status: refusal_status(fault),
        };
        let said = framed(self.alloc, smid_of(post), reply);
        self.say_on(queue, said);
    }

    // ---- events

    /// Event notification lets topology events through where their bit of EventMasks0 is clear.
    pub(crate) fn work_notification(&mut self, post: &Post, ask: &EventAsk)
        requires room { 1 ≤ self.old.room }
        requires stands { EventAskStands ask.now post.now.frame }
        ensures part { self.new.part ≡ works_notification self.old.part post.now }
        ensures told { self.new.told ≡ self.old.told }
    {
        self.let_through(ask.event_masks0 & TOPOLOGY_MASK == 0);
        self.answer(smid_of(post), IocReply::Notified);
    }

    // Topology events are let through, or not.
    fn let_through(&mut self, through: bool)
        ensures part { self.new.part ≡ record self.old.part { through = through } }
        ensures told { self.new.told ≡ self.old.told }
        ensures room { self.new.room ≡ self.old.room }
    {
        self.through = through;
    }

    /// An event is acknowledged, where it is one that wasn't.
    pub(crate) fn work_ack(&mut self, post: &Post, ack: &EventAck)
        requires room { 1 ≤ self.old.room }
        requires stands { EventAckStands ack.now post.now.frame }
        ensures part { self.new.part ≡ works_ack self.old.part post.now }
        ensures told { self.new.told ≡ self.old.told }
    {
        if self.is_of_event(ack) {
            self.forget_context(ack.event_context);
            self.end_ack(smid_of(post), IOC_STATUS_SUCCESS);
        } else {
            self.end_ack(smid_of(post), IOC_STATUS_INVALID_FIELD);
        }
    }

    // An acknowledgement is answered.
    fn end_ack(&mut self, smid: Smid, status: u16)
        requires { 1 ≤ self.old.room }
        ensures part { self.new.part ≡ ioc_answers self.old.part smid (reply.Plain 8 status) }
        ensures told { self.new.told ≡ self.old.told }
    {
        let reply = IocReply::Plain {
            function: MPI2_FUNCTION_EVENT_ACK,
            status,
        };
        self.answer(smid, reply);
    }

    // Whether the acknowledgement is of an event that wasn't acknowledged.
    fn is_of_event(&self, ack: &EventAck) -> bool
        ensures { result ≡ (ack.now.event == topology_change_list && set.contains self.now.part.unacked ack.now.event_context) }
    {
        ack.event == MPI2_EVENT_SAS_TOPOLOGY_CHANGE_LIST && self.unacked.has(ack.event_context)
    }

    // The context's event is acknowledged.
    fn forget_context(&mut self, context: u32)
        ensures part { self.new.part ≡ record self.old.part { unacked = set.remove self.old.part.unacked context } }
        ensures told { self.new.told ≡ self.old.told }
        ensures room { self.new.room ≡ self.old.room }
    {
        self.unacked.remove(context);
    }

    // ---- port enable

    /// A port enable: there is one after an IOC Init.
    pub(crate) fn work_enable(&mut self, post: &Post)
        requires room { 1 ≤ self.old.room }
        requires identifier { IsIdentifier (smid_in post.now.descriptor) }
        ensures part { self.new.part ≡ works_enable self.old.part post.now }
        ensures told { self.new.told ≡ self.old.told }
    {
        let smid = smid_of(post);
        if self.enabled {
            let reply = IocReply::Plain {
                function: MPI2_FUNCTION_PORT_ENABLE,
                status: IOC_STATUS_INVALID_STATE,
            };
            self.answer(smid, reply);
        } else {
            self.enable(smid);
        }
    }

    // The fabric is asked which disks are plugged, and the answer waits for it.
    fn enable(&mut self, smid: Smid)
        requires room { 1 ≤ self.old.room }
        requires identifier { IsIdentifier smid }
        ensures part { self.new.part ≡ enables self.old.part smid }
        ensures told { self.new.told ≡ self.old.told }
    {
        self.enabled = true;
        self.send_out(Out::Discover);
        self.set_request(smid, AtFabric::PortEnable);
    }

    // ---- remove device

    /// SAS IO unit control of this identifier: remove device is its one operation. Where memory is wanting nothing
    /// changes.
    pub(crate) fn work_control(&mut self, smid: Smid, ask: &UnitControl) -> Result<(), OutOfMemory>
        requires { 4 ≤ self.old.room }
        ensures part { (p : Post) → smid_in p.descriptor ≡ smid → UnitControlStands ask.now p.frame →
            OnOk result (self.new.part ≡ (works_unit_control self.old.part p).part) }
        ensures told { (p : Post) → smid_in p.descriptor ≡ smid → UnitControlStands ask.now p.frame →
            OnOk result (self.new.told ≡ self.old.told ++ (works_unit_control self.old.part p).entries) }
        ensures stays { OnErr result (self.new.part ≡ self.old.part) }
        ensures silent { OnErr result (self.new.told ≡ self.old.told) }
    {
        match self.control_refusal(ask.dev_handle, ask.operation) {
            Some(status) => {
                self.end_removal(smid, ask.dev_handle, ask.operation, status);
                Ok(())
            }
            None => self.remove(smid, ask.dev_handle, ask.operation),
        }
    }

    // The IOCStatus with which SAS IO unit control is refused. None exactly where the handle is removed.
    fn control_refusal(&self, handle: Handle, operation: u8) -> Option<u16>
        ensures { result ≡ control_refusal self.now.part handle operation }
    {
        if operation != MPI2_SAS_OP_REMOVE_DEVICE {
            return Some(IOC_STATUS_INVALID_FIELD);
        }
        match self.binding(handle) {
            Binding::Unbound => Some(IOC_STATUS_SCSI_INVALID_DEVHANDLE),
            Binding::Present { .. } => Some(IOC_STATUS_INVALID_STATE),
            Binding::Gone { .. } if self.has_commands(handle) => Some(IOC_STATUS_BUSY),
            Binding::Gone { .. } => None,
        }
    }

    // SAS IO unit control is answered.
    fn end_removal(&mut self, smid: Smid, handle: Handle, operation: u8, status: u16)
        requires { 1 ≤ self.old.room }
        ensures part { self.new.part ≡ ioc_answers self.old.part smid (reply.Removed handle operation status) }
        ensures told { self.new.told ≡ self.old.told }
        ensures room { self.new.room + 1 ≡ self.old.room }
    {
        let reply = IocReply::Removed {
            handle,
            operation,
            status,
        };
        self.answer(smid, reply);
    }

    // The handle, whose disk is gone, is free once more, the request is answered, and the first disk that waits is given
    // a handle. Where memory is wanting nothing changes.
    fn remove(&mut self, smid: Smid, handle: Handle, operation: u8) -> Result<(), OutOfMemory>
        requires room { 4 ≤ self.old.room }
        requires gone { IsTrue (is_gone (binding_of self.old.part handle)) }
        ensures part { OnOk result (self.new.part ≡ (removes_for self.old.part smid handle operation).part) }
        ensures told { OnOk result (self.new.told ≡ self.old.told ++ (removes_for self.old.part smid handle operation).entries) }
        ensures stays { OnErr result (self.new.part ≡ self.old.part) }
        ensures silent { OnErr result (self.new.told ≡ self.old.told) }
    {
        let Some(first) = self.disks.first_waiting() else {
            self.disks.unbind(handle);
            self.tell(Entry::Unbind { handle });
            self.end_removal(smid, handle, operation, IOC_STATUS_SUCCESS);
            return Ok(());
        };
        let given = self.unbind_for(handle, first)?;
        self.tell(Entry::Unbind { handle });
        self.end_removal(smid, handle, operation, IOC_STATUS_SUCCESS);
        self.tell_bind(given, first);
        Ok(())
    }
}
