//! Task management: aborts, target resets, and what the controller doesn't support.
ghost use Rattle.std.specs.Prelude.{◌≡◌, ◌≤◌, ◌+◌, ◌==◌};
ghost use Rattle.scsi_msgs.specs.TaskAsk.{TaskAskStands};
ghost use Rattle.mpt_wire.specs.Messages.Fields.{smid_in};
ghost use Rattle.mpt_rules.specs.Ioc.Tables.{binding_of, is_command_of, request_at};
ghost use Rattle.mpt_rules.specs.Ioc.Tasks.{aborts_sent, ends_target_reset, fails_task, ioc_aborts, ioc_ends_abort, ioc_resets_target, resets_gone, sends_abort, works_task};
ghost use Rattle.ioc_tables.specs.Queues.{IsIdentifier};

use crate::ioc::Ioc;
use ioc_tables::smid_of;
use mpi_names::{MPI2_SCSITASKMGMT_TASKTYPE_ABORT_TASK, MPI2_SCSITASKMGMT_TASKTYPE_TARGET_RESET};
use mpt_messages::IocReply;
use mpt_rules::{
    AtFabric, Binding, HeldReset, IOC_STATUS_SCSI_INVALID_DEVHANDLE,
    IOC_STATUS_SCSI_TASK_MGMT_FAILED, IOC_STATUS_SCSI_TASK_TERMINATED, IOC_STATUS_SUCCESS, Post,
};
use mpt_trace::{Handle, Out, Smid};
use scsi_msgs::TaskAsk;

// ResponseCode: mpi2_init.h, MPI2_SCSITASKMGMT_RSP_TM_NOT_SUPPORTED.
const NOT_SUPPORTED: u8 = 0x04;

impl Ioc {
    /// Task management whose frame stands for one.
    pub(crate) fn work_task(&mut self, post: &Post, ask: &TaskAsk)
        requires room { 2 ≤ self.old.room }
        requires stands { TaskAskStands ask.now post.now.frame }
        requires identifier { IsIdentifier (smid_in post.now.descriptor) }
        ensures part { self.new.part ≡ works_task self.old.part post.now }
        ensures told { self.new.told ≡ self.old.told }
    {
        let smid = smid_of(post);
        let task_type = ask.task_type;
        if task_type == MPI2_SCSITASKMGMT_TASKTYPE_ABORT_TASK {
            self.abort(smid, ask.task_mid, ask.dev_handle);
        } else if task_type == MPI2_SCSITASKMGMT_TASKTYPE_TARGET_RESET {
            self.reset_target(smid, ask.dev_handle);
        } else {
            self.fail_task(smid, ask.dev_handle, task_type);
        }
    }

    // ---- aborts

    // The SCSI IO of this identifier and handle is to be stopped.
    fn abort(&mut self, smid: Smid, task: Smid, handle: Handle)
        requires room { 2 ≤ self.old.room }
        requires identifier { IsIdentifier smid }
        ensures part { self.new.part ≡ ioc_aborts self.old.part smid task handle }
        ensures told { self.new.told ≡ self.old.told }
    {
        match self.queues.take_command(task, handle) {
            Some(post) => {
                self.end_scsi(&post, IOC_STATUS_SCSI_TASK_TERMINATED);
                self.end_abort(smid, handle, 1);
            }
            None => self.abort_sent(smid, task, handle),
        }
    }

    // An abort of a SCSI IO that isn't queued: it is at the fabric, or at neither.
    fn abort_sent(&mut self, smid: Smid, task: Smid, handle: Handle)
        requires room { 1 ≤ self.old.room }
        requires identifier { IsIdentifier smid }
        ensures part { self.new.part ≡ aborts_sent self.old.part smid task handle }
        ensures told { self.new.told ≡ self.old.told }
    {
        if self.is_command_of(task, handle) {
            self.send_abort(smid, task, handle);
        } else {
            self.end_abort(smid, handle, 0);
        }
    }

    // Whether the SCSI IO of this identifier and handle is at the fabric.
    fn is_command_of(&self, task: Smid, handle: Handle) -> bool
        ensures { result ≡ is_command_of handle (request_at self.now.part task) }
    {
        match self.request_at(task) {
            Some(AtFabric::Command { handle: of, .. }) => of == handle,
            _ => false,
        }
    }

    // The fabric is asked to stop the SCSI IO.
    fn send_abort(&mut self, smid: Smid, task: Smid, handle: Handle)
        requires room { 1 ≤ self.old.room }
        requires identifier { IsIdentifier smid }
        ensures part { self.new.part ≡ sends_abort self.old.part smid task handle }
        ensures told { self.new.told ≡ self.old.told }
    {
        self.send_out(Out::Abort { smid, task });
        self.set_request(smid, AtFabric::Abort { handle });
    }

    /// An abort is answered SUCCESS, with the number of commands that it ended.
    pub(crate) fn end_abort(&mut self, smid: Smid, handle: Handle, count: u32)
        requires { 1 ≤ self.old.room }
        ensures part { self.new.part ≡ ioc_ends_abort self.old.part smid handle count }
        ensures told { self.new.told ≡ self.old.told }
    {
        let reply = IocReply::Task {
            handle,
            task_type: MPI2_SCSITASKMGMT_TASKTYPE_ABORT_TASK,
            status: IOC_STATUS_SUCCESS,
            code: 0,
            count,
        };
        self.answer(smid, reply);
    }

    // ---- target resets

    // A target reset, by what the handle stands for.
    fn reset_target(&mut self, smid: Smid, handle: Handle)
        requires room { 1 ≤ self.old.room }
        requires identifier { IsIdentifier smid }
        ensures part { self.new.part ≡ ioc_resets_target self.old.part smid handle (binding_of self.old.part handle) }
        ensures told { self.new.told ≡ self.old.told }
    {
        match self.binding(handle) {
            Binding::Unbound => {
                self.end_target_reset(smid, handle, IOC_STATUS_SCSI_INVALID_DEVHANDLE, 0);
            }
            Binding::Present { address, .. } => {
                self.send_out(Out::TargetReset { smid, address });
                self.set_request(smid, AtFabric::TargetReset { handle });
            }
            Binding::Gone { .. } => self.reset_gone(smid, handle),
        }
    }

    // A target reset of a gone disk: nothing is sent; it waits while commands of the handle are at the fabric.
    fn reset_gone(&mut self, smid: Smid, handle: Handle)
        requires { 1 ≤ self.old.room }
        ensures part { self.new.part ≡ resets_gone self.old.part smid handle }
        ensures told { self.new.told ≡ self.old.told }
    {
        if self.has_commands(handle) {
            self.hold(HeldReset { smid, handle });
        } else {
            self.end_target_reset(smid, handle, IOC_STATUS_SUCCESS, 0);
        }
    }

    /// A target reset is answered, with the number of commands that it ended.
    pub(crate) fn end_target_reset(&mut self, smid: Smid, handle: Handle, status: u16, count: u32)
        requires { 1 ≤ self.old.room }
        ensures part { self.new.part ≡ ends_target_reset self.old.part smid handle status count }
        ensures told { self.new.told ≡ self.old.told }
    {
        let reply = IocReply::Task {
            handle,
            task_type: MPI2_SCSITASKMGMT_TASKTYPE_TARGET_RESET,
            status,
            code: 0,
            count,
        };
        self.answer(smid, reply);
    }

    // ---- what isn't supported

    // A logical unit reset or a query task.
    fn fail_task(&mut self, smid: Smid, handle: Handle, task_type: u8)
        requires { 1 ≤ self.old.room }
        ensures part { self.new.part ≡ fails_task self.old.part smid handle task_type }
        ensures told { self.new.told ≡ self.old.told }
    {
        let reply = IocReply::Task {
            handle,
            task_type,
            status: IOC_STATUS_SCSI_TASK_MGMT_FAILED,
            code: NOT_SUPPORTED,
            count: 0,
        };
        self.answer(smid, reply);
    }
}
