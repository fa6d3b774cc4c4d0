//! The machine of disks, as far as a summary shows it.
ghost use Rattle.std.specs.Prelude.{◌≡◌, All, IfOk, OnOk, is_some};
ghost use Rattle.std.specs.Ordering.{nat_cmp};
ghost use Rattle.std.specs.BTreeMap as tree;
ghost use Rattle.std.specs.BTreeMap.{btree_map_len};
ghost use Rattle.mpt_trace.specs.declared.outcome.Outcome.{Outcome};
ghost use Rattle.mpt_trace.specs.Command.{command_named};
ghost use Rattle.mpt_wire.specs.Machine.Calls.{call_of};
ghost use Rattle.mpt_wire.specs.Machine.Causes.{Submit};
ghost use Rattle.mpt_wire.specs.Machine.State.{disks_of, first_machine};
ghost use Rattle.mpt_wire.specs.Machine.Steps.{Answers, EndsReset, GetsReady, GetsUp, Grants, IsLost, Runs, after};
ghost use Rattle.disk_machine.specs.Machine.{AddsDisk, BecomesAs, ChangesAt, HasDisks, IsDiskSize, StandsFor, granted_as_told};
ghost use Rattle.disk_machine.specs.Summary.{traced_line};

use crate::traced_disk::TracedDisk;
use mpt_trace::{
    Address, CommandForm, DiskLine, DiskSpec, HostState, Input, OutOfMemory, command_of,
};
use scsi_disk::Room;
use std::alloc::Global;
use std::collections::BTreeMap;

/// The machine of disks: the disks by address, the plug that is ready by address, the host's state,
/// and the command of each open request by number.
#[derive(Drop)]
pub(crate) struct DiskMachine {
    alloc: Global,
    disks: BTreeMap<Address, TracedDisk>,
    ready: BTreeMap<Address, u32>,
    mode: HostState,
    requests: BTreeMap<u32, CommandForm>,
    room: Room,
}

impl DiskMachine {
    // The machine at first, with these disks; or OutOfMemory.
    pub(crate) fn new(alloc: Global, disks: &[DiskSpec]) -> Result<DiskMachine, OutOfMemory>
        requires { All IsDiskSize disks.now }
        ensures { IfOk result (λ machine. StandsFor machine (first_machine disks.now)) }
    {
        let disks = zero_disks(alloc, disks)?;
        let room = Room::new(alloc)?;
        Ok(DiskMachine {
            alloc,
            disks,
            ready: BTreeMap::new(alloc),
            mode: HostState::Off,
            requests: BTreeMap::new(alloc),
            room,
        })
    }

    // An input is granted. A submission waits for its accept.
    pub(crate) fn grant(&mut self, input: &Input)
        ensures { BecomesAs self.old self.new (λ m. granted_as_told m (call_of input.now)) }
    {
        match input {
            Input::Start => self.mode = HostState::Starting,
            Input::Reset | Input::UnitReset => self.mode = HostState::Resetting,
            Input::Plug {
                address,
                expander,
                phy,
            } => self.place(*address, Some((*expander, *phy))),
            Input::Unplug { address } => self.place(*address, None),
            Input::Submit { .. } | Input::Abort { .. } | Input::TargetReset { .. } => {}
        }
    }

    // The disk of the address, if there is one, is plugged there, or nowhere.
    fn place(&mut self, address: Address, at: Option<(u8, u8)>)
        ensures { ChangesAt self.old self.new address (λ disk. (disk.disk.bytes, at)) }
    {
        if let Some(disk) = self.disks.get_mut(&address) {
            disk.at = at;
        }
    }

    // The submission is accepted, where a plug of its disk is ready.
    pub(crate) fn accept(
        &mut self,
        n: u32,
        address: Address,
        form: &CommandForm,
    ) -> Result<(), OutOfMemory>
        ensures { OnOk result (BecomesAs self.old self.new (λ m. after m (Grants (Submit n address (command_named form.now))))) }
    {
        if self.ready.contains_key(&address) {
            let form = form.copy(self.alloc)?;
            self.requests.insert(n, form)?;
        }
        Ok(())
    }

    // The request of the number, if it is open, runs at the disk of the address.
    pub(crate) fn run(&mut self, n: u32, address: Address) -> Result<(), OutOfMemory>
        ensures { OnOk result (BecomesAs self.old self.new (λ m. after m (Runs n address))) }
    {
        let Some(form) = self.requests.get(&n) else {
            return Ok(());
        };
        let command = command_of(self.alloc, form)?;
        self.room.refill()?;
        if let Some(disk) = self.disks.get_mut(&address) {
            disk.perform(&command, &mut self.room);
        }
        Ok(())
    }

    // The request of the number is answered.
    pub(crate) fn answer(&mut self, n: u32)
        ensures { (how : Outcome) → BecomesAs self.old self.new (λ m. after m (Answers n how)) }
    {
        self.requests.remove(&n);
    }

    // The host has brought the controller up.
    pub(crate) fn get_up(&mut self)
        ensures { BecomesAs self.old self.new (λ m. after m GetsUp) }
    {
        self.mode = HostState::Up;
    }

    // The host calls a plug of a disk ready.
    pub(crate) fn make_ready(&mut self, address: Address, plug: u32) -> Result<(), OutOfMemory>
        ensures { OnOk result (BecomesAs self.old self.new (λ m. after m (GetsReady address plug))) }
    {
        self.ready.insert(address, plug)?;
        Ok(())
    }

    // The host calls a disk lost.
    pub(crate) fn lose(&mut self, address: Address)
        ensures { BecomesAs self.old self.new (λ m. after m (IsLost address)) }
    {
        self.ready.remove(&address);
    }

    // A reset is done.
    pub(crate) fn end_reset(&mut self)
        ensures { BecomesAs self.old self.new (λ m. after m EndsReset) }
    {
        self.mode = HostState::Starting;
        self.ready.clear();
    }

    // The host's state.
    pub(crate) fn mode(&self) -> HostState
        ensures { result ≡ self.now.mode }
    {
        self.mode
    }

    // How many requests are open.
    pub(crate) fn unanswered(&self) -> usize
        ensures { result ≡ btree_map_len self.now.requests }
    {
        self.requests.len()
    }

    // Whether a plug of the disk of an address is ready.
    pub(crate) fn is_ready(&self, address: Address) -> bool
        ensures { result ≡ is_some (tree.get nat_cmp self.now.ready address) }
    {
        self.ready.contains_key(&address)
    }

    // Where the disk of an address is plugged, and the sum over its bytes.
    pub(crate) fn line(&self, address: Address) -> DiskLine
        ensures { result ≡ traced_line self.now address }
    {
        match self.disks.get(&address) {
            Some(disk) => DiskLine {
                address,
                at: disk.at,
                sum: disk.sum(),
            },
            None => DiskLine {
                address,
                at: None,
                sum: 0,
            },
        }
    }
}

// The disks of these declarations, by address: of those with one address the first.
fn zero_disks(
    alloc: Global,
    disks: &[DiskSpec],
) -> Result<BTreeMap<Address, TracedDisk>, OutOfMemory>
    requires { All IsDiskSize disks.now }
    ensures { IfOk result (λ map. HasDisks map (disks_of disks.now)) }
{
    let mut traced = BTreeMap::new(alloc);
    for spec in disks {
        add_disk(alloc, &mut traced, *spec)?;
    }
    Ok(traced)
}

// One more declaration: a disk of zeros, unless there is one of its address.
fn add_disk(
    alloc: Global,
    traced: &mut BTreeMap<Address, TracedDisk>,
    spec: DiskSpec,
) -> Result<(), OutOfMemory>
    requires { IsDiskSize spec }
    ensures { OnOk result (AddsDisk traced.old traced.new spec) }
{
    if traced.contains_key(&spec.address) {
        return Ok(());
    }
    let disk = TracedDisk::new(alloc, spec)?;
    traced.insert(spec.address, disk)?;
    Ok(())
}
