//! The machine of disks along a trace.
ghost use Rattle.std.specs.Prelude.{All, IfOk, OnOk, [], ◌∷◌};
ghost use Rattle.mpt_trace.specs.declared.entry.Entry.TheVariants as entry;
ghost use Rattle.mpt_wire.specs.Machine.Calls.{call_of, submitted};
ghost use Rattle.mpt_wire.specs.Machine.Reports.{last_machine};
ghost use Rattle.mpt_wire.specs.Machine.SoFar.{nothing_so_far};
ghost use Rattle.mpt_wire.specs.Machine.State.{first_machine};
ghost use Rattle.mpt_wire.specs.Machine.Steps.{GetsReady, Grants, Runs};
ghost use Rattle.mpt_wire.specs.Machine.View.{given_steps, step_if, steps_of};
ghost use Rattle.mpt_wire.specs.Walks.Ahead.{next_own};
ghost use Rattle.disk_machine.specs.Machine.{IsDiskSize, StandsFor};
ghost use Rattle.disk_machine.specs.Walk.{Accords, MakesSteps, Takes};

use crate::machine::DiskMachine;
use crate::memory::TraceMemory;
use crate::refusals::is_refused;
use mpt_trace::{Address, DiskSpec, Entry, Handle, Input, OutOfMemory, Tag};
use std::alloc::Global;

/// The machine that the entries so far leave, and what they said.
#[derive(Drop)]
struct TraceWalk {
    machine: DiskMachine,
    memory: TraceMemory,
}

impl TraceWalk {
    // Before the first entry.
    fn new(alloc: Global, disks: &[DiskSpec]) -> Result<TraceWalk, OutOfMemory>
        requires { All IsDiskSize disks.now }
        ensures { IfOk result (λ walk. Accords walk (first_machine disks.now) nothing_so_far) }
    {
        let machine = DiskMachine::new(alloc, disks)?;
        Ok(TraceWalk {
            machine,
            memory: TraceMemory::new(alloc),
        })
    }

    // The next entry comes, before these.
    fn take(&mut self, entry: &Entry, later: &[Entry]) -> Result<(), OutOfMemory>
        ensures { OnOk result (Takes self.old self.new entry.now (next_own entry.now later.now)) }
    {
        self.follow(entry, later)?;
        self.memory.hear(entry)?;
        Ok(())
    }

    // The machine makes the steps of an entry.
    fn follow(&mut self, entry: &Entry, later: &[Entry]) -> Result<(), OutOfMemory>
        ensures { OnOk result (MakesSteps self.old self.new (λ g. steps_of g entry.now (next_own entry.now later.now))) }
    {
        match entry {
            Entry::Given(input) => self.give(input, later),
            Entry::Run { address, tag } => self.run(*address, *tag)?,
            Entry::HostUp => self.machine.get_up(),
            Entry::Ready { address, handle } => self.make_ready(*address, *handle)?,
            Entry::Lost { address, .. } => self.machine.lose(*address),
            Entry::Accept { n, address, .. } => self.accept(*n, *address)?,
            Entry::Answer { n, .. } => self.machine.answer(*n),
            Entry::ResetDone => self.machine.end_reset(),
            _ => {}
        }
        Ok(())
    }

    // An input comes: what it asks is granted, unless the next entry of its party refuses it.
    fn give(&mut self, input: &Input, later: &[Entry])
        ensures { MakesSteps self.old self.new (λ g. given_steps (call_of input.now) (next_own (entry.Given input.now) later.now)) }
    {
        if !is_refused(input, later) {
            self.machine.grant(input);
        }
    }

    // The task with a tag runs at the disk of an address.
    fn run(&mut self, address: Address, tag: Tag) -> Result<(), OutOfMemory>
        ensures { OnOk result (MakesSteps self.old self.new (λ g. step_if (g.number_of tag) (λ n. Runs n address) ∷ [])) }
    {
        match self.memory.number_of(tag) {
            Some(n) => self.machine.run(n, address),
            None => Ok(()),
        }
    }

    // The host calls a disk ready, with the plug that its handle was bound to.
    fn make_ready(&mut self, address: Address, handle: Handle) -> Result<(), OutOfMemory>
        ensures { OnOk result (MakesSteps self.old self.new (λ g. step_if (g.plug_of handle) (λ k. GetsReady address k) ∷ [])) }
    {
        match self.memory.plug_of(handle) {
            Some(plug) => self.machine.make_ready(address, plug),
            None => Ok(()),
        }
    }

    // The host accepts a submission: the one that it was told last, if the number and the address
    // are that one's.
    fn accept(&mut self, n: u32, address: Address) -> Result<(), OutOfMemory>
        ensures { OnOk result (MakesSteps self.old self.new (λ g. step_if (submitted g.host_call n address) Grants ∷ [])) }
    {
        match self.memory.asked() {
            Some(
                Input::Submit {
                    n: k,
                    address: b,
                    form,
                },
            ) if *k == n && *b == address => self.machine.accept(n, address, form),
            _ => Ok(()),
        }
    }
}

// The machine that a trace leaves.
pub(crate) fn walked(
    alloc: Global,
    disks: &[DiskSpec],
    entries: &[Entry],
) -> Result<DiskMachine, OutOfMemory>
    requires { All IsDiskSize disks.now }
    ensures { IfOk result (λ machine. StandsFor machine (last_machine disks.now entries.now)) }
{
    let mut walk = TraceWalk::new(alloc, disks)?;
    for (i, entry) in entries.iter().enumerate() {
        walk.take(entry, &entries[i + 1..])?;
    }
    Ok(walk.machine)
}
