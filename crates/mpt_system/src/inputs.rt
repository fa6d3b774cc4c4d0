//! Inputs: each is told to its party.
ghost use Rattle.std.specs.Prelude.{◌≡◌, ◌≤◌, ◌++◌, ◌∷◌, OnErr, OnOk, option_to_list};
ghost use Rattle.std.specs.Option.{option_map};
ghost use Rattle.mpt_rules.specs.World.Cases.{Told, case_of, tells};
ghost use Rattle.mpt_trace.specs.ReadingSchedule.{IsInput};
ghost use Rattle.sas_fabric.specs.Faults.{refusal_in};
ghost use Rattle.mpt_system.specs.Asking.{HasAsked, IsToFabric, IsToHost, fabric_asked, host_asked, refusal_entry};
ghost use Rattle.mpt_system.specs.Parties.{IsWritten, whole_of, world_of};
ghost use Rattle.mpt_system.specs.Whole.{Halted, HasDone, after};

use crate::parties::Parties;
use crate::refusals::{plug_cause, refusal_of, refused};
use crate::system::System;
use host_core::Host;
use mpt_rules::OutOfMemory;
use mpt_trace::{Entry, Input, Refusal, Trace, command_of, entry_fits};
use sas_fabric::{Fabric, PlugFault};
use std::alloc::Global;

impl System {
    /// Tells an input to its party: plugs and unplugs to the fabric, all others to the host. Where the
    /// party refuses, that is entered. A plug or an unplug that names no disk or phy that exists does
    /// nothing, and makes no entry.
    ///
    /// # Errors
    /// After OutOfMemory either nothing has happened, or the whole case has, and the last of its entries
    /// are pending: they are written by the next call.
    pub fn input(&mut self, input: Input) -> Result<(), OutOfMemory>
        ensures ok { OnOk result (self.new ≡ after self.old (case_of self.old.world (Told input))) }
        ensures memory { OnErr result (Halted self.old (case_of self.old.world (Told input)) self.new) }
    {
        self.parties.write_told()?;
        let given = Entry::Given(input.copy(self.parties.alloc)?);
        // Its numbers are those that an input can have.
        entry_fits(&given);
        self.parties.tell(&input, given)
    }
}

impl Parties {
    // The input is told to its party.
    fn tell(&mut self, input: &Input, given: Entry) -> Result<(), OutOfMemory>
        requires written { IsWritten self.old }
        requires given { given ≡ Entry.Given input.now }
        ensures { HasDone (whole_of self.old) (tells (world_of self.old) input.now) result (whole_of self.new) }
    {
        match input {
            Input::Plug { .. } | Input::Unplug { .. } => self.tell_fabric(input, given),
            _ => self.tell_host(input, given),
        }
    }

    // The input is told to the host.
    fn tell_host(&mut self, input: &Input, given: Entry) -> Result<(), OutOfMemory>
        requires written { IsWritten self.old }
        requires given { given ≡ Entry.Given input.now }
        requires host { IsToHost input.now }
        ensures { HasDone (whole_of self.old) (tells (world_of self.old) input.now) result (whole_of self.new) }
    {
        self.trace.reserve(2)?;
        let cause = ask_host(self.alloc, &mut self.host, input)?;
        enter(&mut self.trace, input, given, cause);
        self.write_told()
    }

    // The input is told to the fabric.
    fn tell_fabric(&mut self, input: &Input, given: Entry) -> Result<(), OutOfMemory>
        requires written { IsWritten self.old }
        requires given { given ≡ Entry.Given input.now }
        requires fabric { IsToFabric input.now }
        ensures { HasDone (whole_of self.old) (tells (world_of self.old) input.now) result (whole_of self.new) }
    {
        self.trace.reserve(2)?;
        let Err(fault) = ask_fabric(&mut self.fabric, input) else {
            enter(&mut self.trace, input, given, None);
            return Ok(());
        };
        if let Some(cause) = plug_cause(fault)? {
            enter(&mut self.trace, input, given, Some(cause));
        }
        Ok(())
    }
}

// The host is asked what an input asks: the cause where it refuses. Where memory is wanting nothing changes.
fn ask_host(alloc: Global, host: &mut Host, input: &Input) -> Result<Option<Refusal>, OutOfMemory>
    ensures { HasAsked host.old (host_asked host.old.host input.now) result host.new }
{
    match input {
        Input::Start => refused(host.start()),
        Input::Submit { n, address, form } => {
            let command = command_of(alloc, form)?;
            refused(host.submit(*n, *address, command))
        }
        Input::Abort { n } => refused(host.abort(*n)),
        Input::TargetReset { address } => refused(host.target_reset(*address)),
        Input::Reset => refused(host.diag_reset()),
        Input::UnitReset => refused(host.unit_reset()),
        Input::Plug { .. } | Input::Unplug { .. } => Ok(None),
    }
}

// The fabric is asked what an input asks.
fn ask_fabric(fabric: &mut Fabric, input: &Input) -> Result<(), PlugFault>
    ensures refused { refusal_in result ≡ (fabric_asked fabric.old input.now).answer }
    ensures ok { OnOk result (fabric.new ≡ (fabric_asked fabric.old input.now).part) }
    ensures stays { OnErr result (fabric.new ≡ fabric.old) }
{
    match input {
        Input::Plug {
            address,
            expander,
            phy,
        } => fabric.plug(*address, *expander, *phy),
        Input::Unplug { address } => fabric.unplug(*address),
        _ => Ok(()),
    }
}

// The input is entered, and behind it its refusal, if it was refused. There is room for both.
fn enter(trace: &mut Trace, input: &Input, given: Entry, cause: Option<Refusal>)
    requires { 2 ≤ trace.old.room }
    ensures { trace.new.entries ≡ trace.old.entries ++ given ∷ option_to_list (option_map (refusal_entry input.now) cause) }
{
    trace.push(given).unwrap();
    if let Some(cause) = cause {
        trace.push(refusal_of(input, cause)).unwrap();
    }
}
