//! The fabric with its journal and its clock.
ghost use Rattle.std.specs.Prelude.{◌≡◌, ◌≢◌, ◌<◌, ◌^◌, [], Err, IfOk, OnOk, slice_get};
ghost use Rattle.mpt_rules.specs.Fabric.Calls.{oldest};
ghost use Rattle.mpt_rules.specs.World.Inputs.{by_plug};
ghost use Rattle.mpt_rules.specs.Session.OpenCases.{FabricCase, fabric_does};
ghost use Rattle.mpt_live.specs.Lanes.{WasGiven};
ghost use Rattle.mpt_live.specs.Recorded.{Made, MadeOf, after_case, next_stamp, stamp_after, stamped_with};
ghost use Rattle.sas_fabric.specs.Faults.{refusal_in};

use crate::giving::Giving;
use crate::refusals::plug_refusal;
use crate::sent::Sent;
use mpt_journal::{Journal, OutOfMemory};
use mpt_trace::{Back, Entry, Input, Item, LaneName, Out, Party, RefusedCall};
use sas_fabric::{AnnounceFault, Fabric, PlugFault, RunFault};
use std::alloc::Global;
use std::marker::Model;
use std::sync::Wait;

/// A fabric, each case of which is recorded in its journal under a stamp of its own. A contract sees it as the
/// record of the fabric's rules, with its journal and its clock.
///
/// After OutOfMemory the case for which memory was wanting may be recorded in part, or not at all.
#[derive(Drop)]
pub(crate) struct RecordedFabric {
    alloc: Global,
    fabric: Fabric,
    journal: Journal,
    clock: u64,
}

impl Model for RecordedFabric {
    ghost use Rattle.mpt_rules.specs.Fabric.Parts.{Fabric};
    ghost use Rattle.mpt_live.specs.Recorded.{Recorded};

    ghost Value = { Recorded Fabric };

    ghost view = { λ r. record { part = r.fabric; row = r.journal.row; clock = r.clock } };
}

impl RecordedFabric {
    /// The fabric with an empty journal and its clock at 0.
    pub(crate) fn new(alloc: Global, fabric: Fabric) -> RecordedFabric
        ensures { result ≡ record { part = fabric; row = record { party = Party.Fabric; moments = [] }; clock = 0 } }
    {
        RecordedFabric {
            alloc,
            fabric,
            journal: Journal::new(alloc, Party::Fabric),
            clock: 0,
        }
    }

    /// The clock.
    pub(crate) fn clock(&self) -> u64
        ensures { result ≡ self.now.clock }
    {
        self.clock
    }

    /// Whether there is an item for the controller to put.
    pub(crate) fn has_back(&self) -> bool {
        self.fabric.front_back().is_some()
    }

    /// The fabric and its journal.
    pub(crate) fn into_parts(self) -> (Fabric, Journal)
        ensures part { result.0 ≡ self.part }
        ensures row { result.1.row ≡ self.row }
    {
        (self.fabric, self.journal)
    }

    /// Takes an item of the lane out.
    pub(crate) fn take_out(&mut self, sent: Sent<Out>) -> Result<(), OutOfMemory>
        requires { self.old.clock < 2 ^ 61 }
        ensures { OnOk result (self.new ≡ after_case fabric_does self.old (record { stamp = stamp_after self.old sent.stamp; value = FabricCase.Takes sent.item })) }
    {
        let stamp = self.clock.max(sent.stamp) + 1;
        let item = sent.item.copy(self.alloc)?;
        self.fabric.take(sent.item).map_err(|_| OutOfMemory)?;
        self.clock = stamp;
        let entry = Entry::Take {
            lane: LaneName::Out,
            item: Item::Out(item),
        };
        self.journal.push(stamp, entry)
    }

    /// Tells the first notice. False where there is none.
    pub(crate) fn announce(&mut self) -> Result<bool, OutOfMemory>
        requires { self.old.clock < 2 ^ 61 }
        ensures made { IfOk result (λ told. Made fabric_does FabricCase.Says self.old told self.new) }
    {
        match self.fabric.announce() {
            Ok(()) => {
                self.clock += 1;
                Ok(true)
            }
            Err(AnnounceFault::NoNotice) => Ok(false),
            Err(AnnounceFault::OutOfMemory) => Err(OutOfMemory),
        }
    }

    /// Performs the task that was queued first. False where none is queued.
    pub(crate) fn run_oldest(&mut self) -> Result<bool, OutOfMemory>
        requires { self.old.clock < 2 ^ 61 }
        ensures { IfOk result (λ ran. MadeOf fabric_does FabricCase.Runs (oldest self.old.part) self.old ran self.new) }
    {
        let Some(tag) = self.fabric.oldest() else {
            return Ok(false);
        };
        self.journal.reserve(1)?;
        match self.fabric.run(tag) {
            Ok(address) => {
                self.clock += 1;
                self.journal.push(self.clock, Entry::Run { address, tag })?;
                Ok(true)
            }
            Err(RunFault::NoTask) => Ok(false),
            Err(RunFault::OutOfMemory) => Err(OutOfMemory),
        }
    }

    /// Does a line: a plug or an unplug. Any other input does nothing.
    pub(crate) fn input(&mut self, line: Input) -> Result<(), OutOfMemory>
        requires { self.old.clock < 2 ^ 61 }
        ensures { OnOk result (self.new ≡ after_case fabric_does self.old (record { stamp = next_stamp self.old; value = FabricCase.Told line })) }
    {
        match line {
            Input::Plug {
                address,
                expander,
                phy,
            } => {
                let answer = self.fabric.plug(address, expander, phy);
                self.record_input(line, RefusedCall::Plug(address), answer)
            }
            Input::Unplug { address } => {
                let answer = self.fabric.unplug(address);
                self.record_input(line, RefusedCall::Unplug(address), answer)
            }
            _ => {
                self.clock += 1;
                Ok(())
            }
        }
    }

    // Records a line and what the call for it answered.
    fn record_input(
        &mut self,
        line: Input,
        call: RefusedCall,
        answer: Result<(), PlugFault>,
    ) -> Result<(), OutOfMemory>
        requires { self.old.clock < 2 ^ 61 }
        ensures known { OnOk result (answer ≢ Err PlugFault.OutOfMemory) }
        ensures part { self.new.part ≡ self.old.part }
        ensures clock { OnOk result (self.new.clock ≡ next_stamp self.old) }
        ensures row { OnOk result (self.new.row ≡ stamped_with self.old.row (next_stamp self.old) (by_plug line call (refusal_in answer) self.old.part).entries) }
    {
        let refused = match answer {
            Ok(()) => None,
            Err(fault) => match plug_refusal(fault)? {
                Some(cause) => Some(Entry::Refuse { call, cause }),
                None => {
                    self.clock += 1;
                    return Ok(());
                }
            },
        };
        self.clock += 1;
        self.journal.push(self.clock, Entry::Given(line))?;
        if let Some(refused) = refused {
            self.journal.push(self.clock, refused)?;
        }
        Ok(())
    }

    /// Tells that the fabric has nothing more to tell.
    pub(crate) fn calm(&mut self) -> Result<(), OutOfMemory>
        requires { self.old.clock < 2 ^ 61 }
        ensures { OnOk result (self.new ≡ after_case fabric_does self.old (record { stamp = next_stamp self.old; value = FabricCase.Calms })) }
    {
        self.fabric.calm()?;
        self.clock += 1;
        Ok(())
    }

    /// Puts the next item for the controller. False where there is none or the lane is full.
    pub(crate) fn put_back<R: Wait>(
        &mut self,
        rt: &R,
        lane: &mut Giving<'_, Back>,
    ) -> Result<bool, OutOfMemory>
        requires { self.old.clock < 2 ^ 61 }
        ensures made { IfOk result (λ put. Made fabric_does FabricCase.Puts self.old put self.new) }
        ensures given { IfOk result (λ put. WasGiven (slice_get self.old.part.out 0) lane.old (next_stamp self.old) put lane.new) }
    {
        let Some(next) = self.fabric.front_back() else {
            return Ok(false);
        };
        let item = next.copy(self.alloc)?;
        self.journal.reserve(1)?;
        let stamp = self.clock + 1;
        if lane.give(rt, stamp, item).is_err() {
            return Ok(false);
        }
        let back = self.fabric.sent_back();
        self.clock = stamp;
        let entry = Entry::Put {
            lane: LaneName::Back,
            item: Item::Back(back),
        };
        self.journal.push(stamp, entry)?;
        Ok(true)
    }
}
