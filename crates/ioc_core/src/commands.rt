//! SCSI IOs: how one is refused or sent to its disk, and how its answer is made of what the fabric tells.
ghost use Rattle.std.specs.Prelude.{◌≡◌, ◌≤◌, ◌+◌, true, IsSome, length};
ghost use Rattle.scsi_msgs.specs.ScsiIo.{ScsiIoStands};
ghost use Rattle.mpt_wire.specs.Messages.Fields.{smid_in};
ghost use Rattle.mpt_rules.specs.Ioc.Commands.{answers_held, command_in, ends_command, ends_scsi, releases, sends_command, works_scsi};
ghost use Rattle.mpt_rules.specs.Ioc.Replies.{scsi_ended};
ghost use Rattle.mpt_rules.specs.Ioc.Tables.{request_at};
ghost use Rattle.ioc_tables.specs.Bindings.{is_table_handle};
ghost use Rattle.ioc_tables.specs.Queues.{IsIdentifier};

use crate::ioc::Ioc;
use ioc_replies::framed;
use ioc_requests::{command_of, dev_handle_of, handle_of, is_inconsistent, kept_of};
use ioc_tables::smid_of;
use mpt_messages::IocReply;
use mpt_rules::{
    Binding, IOC_STATUS_INVALID_FIELD, IOC_STATUS_INVALID_SGL, IOC_STATUS_SCSI_DEVICE_NOT_THERE,
    IOC_STATUS_SCSI_INVALID_DEVHANDLE, Post, Said,
};
use mpt_trace::{Address, Handle, Out, Smid};
use scsi_msgs::ScsiIo;
use std::alloc::Global;

impl Ioc {
    /// A SCSI IO whose frame stands for one is refused, or sent to its disk.
    pub(crate) fn work_scsi(&mut self, post: Post, io: &ScsiIo)
        requires room { 1 ≤ self.old.room }
        requires stands { ScsiIoStands io.now post.frame }
        requires identifier { IsIdentifier (smid_in post.descriptor) }
        ensures part { self.new.part ≡ works_scsi self.old.part post }
        ensures told { self.new.told ≡ self.old.told }
    {
        if handle_of(post.descriptor) != io.dev_handle {
            self.end_scsi(&post, IOC_STATUS_INVALID_FIELD);
            return;
        }
        if is_inconsistent(io, &post) {
            self.end_scsi(&post, IOC_STATUS_INVALID_SGL);
            return;
        }
        match self.binding(io.dev_handle) {
            Binding::Unbound => self.end_scsi(&post, IOC_STATUS_SCSI_INVALID_DEVHANDLE),
            Binding::Present { address, .. } => self.send_command(post, io, address),
            Binding::Gone { .. } => self.end_scsi(&post, IOC_STATUS_SCSI_DEVICE_NOT_THERE),
        }
    }

    /// A SCSI IO is answered with this IOCStatus, without having moved anything.
    pub(crate) fn end_scsi(&mut self, post: &Post, status: u16)
        requires { 1 ≤ self.old.room }
        ensures part { self.new.part ≡ ends_scsi self.old.part post.now status }
        ensures told { self.new.told ≡ self.old.told }
        ensures room { self.new.room + 1 ≡ self.old.room }
    {
        let smid = smid_of(post);
        let said = scsi_ended(self.alloc, smid, dev_handle_of(&post.frame), status);
        self.say_on(self.queue_named(post.descriptor), said);
    }

    // A command goes to the disk at the address.
    fn send_command(&mut self, post: Post, io: &ScsiIo, address: Address)
        requires room { 1 ≤ self.old.room }
        requires stands { ScsiIoStands io.now post.frame }
        requires identifier { IsIdentifier (smid_in post.descriptor) }
        requires handle { is_table_handle io.now.dev_handle ≡ true }
        ensures part { self.new.part ≡ sends_command self.old.part post address (command_in post.frame post.payload) }
        ensures told { self.new.told ≡ self.old.told }
    {
        let smid = smid_of(&post);
        let queue = self.queue_named(post.descriptor);
        let command = command_of(io, post);
        let request = kept_of(io.dev_handle, queue, &command);
        self.send_out(Out::Task {
            tag: smid,
            address,
            command,
        });
        self.set_request(smid, request);
    }

    /// A command has left the fabric, and its answer is made.
    pub(crate) fn end_command(&mut self, smid: Smid, handle: Handle, queue: u8, answer: Said)
        requires room { 1 + length self.old.part.held ≤ self.old.room }
        requires there { IsSome (request_at self.old.part smid) }
        ensures part { self.new.part ≡ ends_command self.old.part smid handle queue answer }
        ensures told { self.new.told ≡ self.old.told }
    {
        self.take_request(smid);
        self.say_on(queue, answer);
        self.release(handle);
    }

    // A command of the handle has left the fabric: with the last one the target resets that wait for it are answered.
    fn release(&mut self, handle: Handle)
        requires { length self.old.part.held ≤ self.old.room }
        ensures part { self.new.part ≡ releases self.old.part handle }
        ensures told { self.new.told ≡ self.old.told }
    {
        if !self.has_commands(handle) {
            self.answer_held(handle);
        }
    }

    // The target resets that wait for the handle are answered, the first processed first.
    fn answer_held(&mut self, handle: Handle)
        requires { length self.old.part.held ≤ self.old.room }
        ensures part { self.new.part ≡ answers_held self.old.part handle }
        ensures told { self.new.told ≡ self.old.told }
    {
        self.lists.answer_held(self.alloc, handle);
    }
}

/// The answer to a SCSI IO that moved nothing.
pub(crate) fn scsi_ended(alloc: Global, smid: Smid, handle: Handle, status: u16) -> Said
    ensures { result ≡ scsi_ended smid handle status }
{
    let reply = IocReply::Scsi {
        handle,
        smid,
        scsi_status: 0,
        status,
        moved: 0,
        sense: 0,
    };
    framed(alloc, smid, reply)
}
