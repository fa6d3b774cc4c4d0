//! What is asked of the host from outside, and in which order it refuses.
ghost use Rattle.std.specs.Prelude.{◌≡◌, ◌≢◌, ◌≤◌, ◌+◌, ◌++◌, ◌∷◌, [], Err, IfOk, None, Ok, OnErr, OnOk, Some, false, true, is_some};
ghost use Rattle.std.specs.FinMap as map;
ghost use Rattle.scsi_disk.specs.Command.{fits};
ghost use Rattle.smid_pool.specs.declared.class.Class.TheVariants.{High, ScsiIo};
ghost use Rattle.smid_pool.specs.Pool.{least_free};
ghost use Rattle.removal.specs.Handles.{ready_handle};
ghost use Rattle.mpt_wire.specs.Messages.Fields.{target_reset};
ghost use Rattle.mpt_wire.specs.Machine.Causes.{is_up};
ghost use Rattle.mpt_rules.specs.Host.Inputs.{diag_resets, host_aborts, host_cause_of_abort, host_cause_of_submit, host_cause_of_target_reset, host_resets_target, host_submits, looks, starts, stops, unit_resets, with_abort_asked, with_accepted};
ghost use Rattle.mpt_rules.specs.Host.Posts.{posts_task};
ghost use Rattle.mpt_rules.specs.Host.Takes.{host_waits};
ghost use Rattle.host_core.specs.Driver.{CanSubmit, IsSame};
ghost use Rattle.host_core.specs.Faults.{refusal_by, refusal_in};

use super::Host;
use super::posts::{push_command, push_task};
use crate::faults::HostFault;
use host_tables::OpenCommand;
use mpi_doorbell::DoorHost;
use mpi_names::{MPI2_SCSITASKMGMT_TASKTYPE_ABORT_TASK, MPI2_SCSITASKMGMT_TASKTYPE_TARGET_RESET};
use mpt_rules::{OutOfMemory, Request, Stage};
use mpt_trace::{Address, Down, Entry, Handle, HostState, Smid};
use scsi_disk::{Command, command_fits};
use smid_pool::Class;

// So much room stays for a submission.
const SUBMIT_ROOM: usize = 2;

// The most items of a turn at the doorbell.
const TURN_ROOM: usize = 9;

impl Host {
    /// Begins to bring the controller up. AlreadyStarted exactly where the host isn't off.
    pub fn start(&mut self) -> Result<(), HostFault>
        ensures refused { refusal_in result ≡ (starts self.old.host).answer }
        ensures ok { OnOk result (self.new.host ≡ (starts self.old.host).part) }
        ensures told { self.new.told ≡ self.old.told }
        ensures stays { OnErr result (IsSame self.old self.new) }
        ensures reserved { CanSubmit self.old → CanSubmit self.new }
    {
        if !matches!(self.mode, HostState::Off) {
            return Err(HostFault::AlreadyStarted);
        }
        self.make_room(TURN_ROOM + SUBMIT_ROOM)?;
        self.mode = HostState::Starting;
        self.look_to_start();
        Ok(())
    }

    /// Submits a command for the disk of an address under a number, and answers its identifier. It is
    /// refused for the first cause that holds: NumberUsed, NotOperational, NoDevice, BadLength,
    /// NoIdentifier. A refused command is dropped.
    pub fn submit(&mut self, n: u32, address: Address, command: Command) -> Result<Smid, HostFault>
        ensures refused { refusal_in result ≡ refusal_by (host_submits self.old.host n address command).answer }
        ensures given { IfOk result (λ smid. (host_submits self.old.host n address command).answer ≡ Ok smid) }
        ensures ok { OnOk result (self.new.host ≡ (host_submits self.old.host n address command).part) }
        ensures told { OnOk result (self.new.told ≡ self.old.told ++ (host_submits self.old.host n address command).told) }
        ensures stays { OnErr result (IsSame self.old self.new) }
        ensures reserved { CanSubmit self.old → result ≢ Err HostFault.OutOfMemory }
    {
        let handle = self.find_handle(n, address, &command)?;
        self.make_number_room()?;
        self.make_room(SUBMIT_ROOM)?;
        Ok(self.accept(n, address, handle, command))
    }

    // The handle of the disk to which a submission goes, or the first cause why it is refused.
    fn find_handle(&self, n: u32, address: Address, command: &Command) -> Result<Handle, HostFault>
        ensures refused { refusal_in result ≡ host_cause_of_submit self.now.host n address command.now }
        ensures handle { IfOk result (λ handle. ready_handle self.now.host.phases address ≡ Some handle) }
        ensures memory { result ≢ Err HostFault.OutOfMemory }
    {
        if self.accepted.contains(n) {
            return Err(HostFault::NumberUsed);
        }
        if !self.is_up() {
            return Err(HostFault::NotOperational);
        }
        let Some(handle) = self.phases.of(address) else {
            return Err(HostFault::NoDevice);
        };
        if !command_fits(command) {
            return Err(HostFault::BadLength);
        }
        if !self.pool.has_free(Class::ScsiIo) {
            return Err(HostFault::NoIdentifier);
        }
        Ok(handle)
    }

    // The command goes out to the handle under the least free identifier, and its number is used for
    // ever.
    fn accept(&mut self, n: u32, address: Address, handle: Handle, command: Command) -> Smid
        requires free { is_some (least_free ScsiIo self.old.host.pool) ≡ true }
        requires fits { fits command ≡ true }
        requires room { CanSubmit self.old }
        ensures least { least_free ScsiIo self.old.host.pool ≡ Some result }
        ensures host { self.new.host ≡ with_accepted self.old.host n address command handle result }
        ensures told { self.new.told ≡ self.old.told ++ Entry.Accept n address result ∷ [] }
    {
        let smid = self.pool.open_command(n).unwrap();
        let queue = ((smid - 1) % u16::from(self.rings.count())) as u8;
        self.accepted.put(n);
        self.cmds.put(n, OpenCommand::new(smid, handle));
        push_command(&mut self.lists, queue, smid, handle, command);
        self.lists.push_told(Entry::Accept { n, address, smid });
        smid
    }

    /// Makes room so that the next `submit` doesn't answer OutOfMemory.
    pub fn reserve(&mut self) -> Result<(), HostFault>
        ensures ok { OnOk result (CanSubmit self.new) }
        ensures same { IsSame self.old self.new }
        ensures memory { OnErr result (result ≡ Err HostFault.OutOfMemory) }
    {
        self.make_number_room()?;
        self.make_room(SUBMIT_ROOM)?;
        Ok(())
    }

    /// Asks that a submission is aborted, and answers the identifier of what asks it. It is refused
    /// for the first cause that holds: NotOperational, NotOpen exactly where no submission of the
    /// number is open, AbortOpen exactly where an abort of it is open, NoIdentifier.
    pub fn abort(&mut self, n: u32) -> Result<Smid, HostFault>
        ensures refused { refusal_in result ≡ refusal_by (host_aborts self.old.host n).answer }
        ensures given { IfOk result (λ smid. (host_aborts self.old.host n).answer ≡ Ok smid) }
        ensures ok { OnOk result (self.new.host ≡ (host_aborts self.old.host n).part) }
        ensures told { self.new.told ≡ self.old.told }
        ensures stays { OnErr result (IsSame self.old self.new) }
        ensures reserved { CanSubmit self.old → CanSubmit self.new }
    {
        let command = self.find_command(n)?;
        self.make_abort_room()?;
        self.make_room(1 + SUBMIT_ROOM)?;
        Ok(self.put_abort(n, &command))
    }

    // The open submission that is to be aborted, or the first cause why the abort is refused.
    fn find_command(&self, n: u32) -> Result<OpenCommand, HostFault>
        ensures refused { refusal_in result ≡ host_cause_of_abort self.now.host n }
        ensures command { IfOk result (λ command. map.get self.now.host.cmds n ≡ Some command) }
    {
        if !self.is_up() {
            return Err(HostFault::NotOperational);
        }
        let Some(command) = self.cmds.get(n) else {
            return Err(HostFault::NotOpen);
        };
        if self.aborts.get(n).is_some() {
            return Err(HostFault::AbortOpen);
        }
        if !self.pool.has_free(Class::High) {
            return Err(HostFault::NoIdentifier);
        }
        Ok(*command)
    }

    // The abort goes out under the least free identifier of task management.
    fn put_abort(&mut self, n: u32, command: &OpenCommand) -> Smid
        requires free { is_some (least_free High self.old.host.pool) ≡ true }
        requires room { 1 ≤ self.old.room }
        requires number { self.old.has_abort_room ≡ true }
        ensures least { least_free High self.old.host.pool ≡ Some result }
        ensures host { self.new.host ≡ with_abort_asked self.old.host n command.now result }
        ensures told { self.new.told ≡ self.old.told }
        ensures room { self.old.room ≤ self.new.room + 1 }
        ensures numbers { self.new.has_number_room ≡ self.old.has_number_room }
    {
        let task = command.smid();
        let smid = self.pool.open_high(Request::Abort { n, task }).unwrap();
        self.aborts.put(n, smid);
        push_task(
            &mut self.lists,
            self.alloc,
            smid,
            command.handle(),
            MPI2_SCSITASKMGMT_TASKTYPE_ABORT_TASK,
            task,
        );
        smid
    }

    /// Asks that the disk of an address is reset, and answers the identifier of what asks it. It is
    /// refused for the first cause that holds: NotOperational, NoDevice, NoIdentifier.
    pub fn target_reset(&mut self, address: Address) -> Result<Smid, HostFault>
        ensures refused { refusal_in result ≡ refusal_by (host_resets_target self.old.host address).answer }
        ensures given { IfOk result (λ smid. (host_resets_target self.old.host address).answer ≡ Ok smid) }
        ensures ok { OnOk result (self.new.host ≡ (host_resets_target self.old.host address).part) }
        ensures told { self.new.told ≡ self.old.told }
        ensures stays { OnErr result (IsSame self.old self.new) }
        ensures reserved { CanSubmit self.old → CanSubmit self.new }
    {
        let handle = self.find_target(address)?;
        self.make_room(1 + SUBMIT_ROOM)?;
        Ok(self.put_target_reset(address, handle))
    }

    // The handle of the disk that is to be reset, or the first cause why it isn't.
    fn find_target(&self, address: Address) -> Result<Handle, HostFault>
        ensures refused { refusal_in result ≡ host_cause_of_target_reset self.now.host address }
        ensures handle { IfOk result (λ handle. ready_handle self.now.host.phases address ≡ Some handle) }
    {
        if !self.is_up() {
            return Err(HostFault::NotOperational);
        }
        let Some(handle) = self.phases.of(address) else {
            return Err(HostFault::NoDevice);
        };
        if !self.pool.has_free(Class::High) {
            return Err(HostFault::NoIdentifier);
        }
        Ok(handle)
    }

    // The target reset goes out under the least free identifier of task management.
    fn put_target_reset(&mut self, address: Address, handle: Handle) -> Smid
        requires free { is_some (least_free High self.old.host.pool) ≡ true }
        requires room { 1 ≤ self.old.room }
        ensures least { least_free High self.old.host.pool ≡ Some result }
        ensures host { self.new.host ≡ posts_task self.old.host result (Request.TargetReset address) handle target_reset 0 }
        ensures told { self.new.told ≡ self.old.told }
        ensures room { self.old.room ≤ self.new.room + 1 }
        ensures numbers { self.new.has_number_room ≡ self.old.has_number_room }
    {
        let smid = self
            .pool
            .open_high(Request::TargetReset { address })
            .unwrap();
        push_task(
            &mut self.lists,
            self.alloc,
            smid,
            handle,
            MPI2_SCSITASKMGMT_TASKTYPE_TARGET_RESET,
            0,
        );
        smid
    }

    /// Begins to reset the controller by its diagnostic register. NotStarted exactly where the host is
    /// off, AlreadyResetting exactly where it resets.
    pub fn diag_reset(&mut self) -> Result<(), HostFault>
        ensures refused { refusal_in result ≡ (diag_resets self.old.host).answer }
        ensures ok { OnOk result (self.new.host ≡ (diag_resets self.old.host).part) }
        ensures told { self.new.told ≡ self.old.told }
        ensures stays { OnErr result (IsSame self.old self.new) }
        ensures reserved { CanSubmit self.old → CanSubmit self.new }
    {
        match self.mode {
            HostState::Off => return Err(HostFault::NotStarted),
            HostState::Resetting => return Err(HostFault::AlreadyResetting),
            HostState::Starting | HostState::Up => {}
        }
        self.make_room(TURN_ROOM + SUBMIT_ROOM)?;
        self.ask_reset(Stage::DiagnosticReset, DoorHost::diag());
        Ok(())
    }

    /// Begins to reset the controller's message unit. NotOperational exactly where the host isn't up.
    pub fn unit_reset(&mut self) -> Result<(), HostFault>
        ensures refused { refusal_in result ≡ (unit_resets self.old.host).answer }
        ensures ok { OnOk result (self.new.host ≡ (unit_resets self.old.host).part) }
        ensures told { self.new.told ≡ self.old.told }
        ensures stays { OnErr result (IsSame self.old self.new) }
        ensures reserved { CanSubmit self.old → CanSubmit self.new }
    {
        if !self.is_up() {
            return Err(HostFault::NotOperational);
        }
        self.make_room(TURN_ROOM + SUBMIT_ROOM)?;
        self.ask_reset(Stage::UnitReset, DoorHost::unit());
        Ok(())
    }

    /// Begins a read of the Doorbell. The host is up and waits for nothing.
    pub fn look(&mut self) -> Result<(), OutOfMemory>
        requires up { is_up self.old.host.mode ≡ true }
        requires quiet { host_waits self.old.host ≡ false }
        ensures ok { OnOk result (self.new.host ≡ looks self.old.host) }
        ensures told { self.new.told ≡ self.old.told }
        ensures stays { OnErr result (IsSame self.old self.new) }
        ensures reserved { CanSubmit self.old → CanSubmit self.new }
    {
        self.make_room(TURN_ROOM + SUBMIT_ROOM)?;
        self.begin(Stage::Look, DoorHost::look());
        Ok(())
    }

    /// Puts the last item of a session. The host is up and waits for nothing.
    pub fn stop(&mut self) -> Result<(), OutOfMemory>
        requires up { is_up self.old.host.mode ≡ true }
        requires quiet { host_waits self.old.host ≡ false }
        ensures ok { OnOk result (self.new.host ≡ stops self.old.host) }
        ensures told { self.new.told ≡ self.old.told }
        ensures stays { OnErr result (IsSame self.old self.new) }
        ensures reserved { CanSubmit self.old → CanSubmit self.new }
    {
        self.make_room(1 + SUBMIT_ROOM)?;
        self.lists.push_down(Down::Stop);
        Ok(())
    }

    // Whether the controller is operational.
    fn is_up(&self) -> bool
        ensures { result ≡ is_up self.now.host.mode }
    {
        matches!(self.mode, HostState::Up)
    }
}
