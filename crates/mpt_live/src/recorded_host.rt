//! The host with its journal and its clock.
ghost use Rattle.std.specs.Prelude.{◌≡◌, ◌≢◌, ◌<◌, ◌≤◌, ◌^◌, ◌++◌, ◌∷◌, [], IfOk, OnErr, OnOk, length, option_to_list, slice_get, Some};
ghost use Rattle.mpt_rules.specs.Session.OpenCases.{HostCase, host_does};
ghost use Rattle.mpt_rules.specs.Host.Takes.{host_waits};
ghost use Rattle.mpt_rules.specs.World.Cases.{is_free};
ghost use Rattle.mpt_rules.specs.World.Inputs.{host_told};
ghost use Rattle.mpt_live.specs.Lanes.{WasGiven};
ghost use Rattle.mpt_live.specs.Recorded.{Made, after_case, next_stamp, stamp_after, stamped_with};

use crate::giving::Giving;
use crate::lanes::up_lane;
use crate::refusals::host_refusal;
use crate::sent::Sent;
use host_core::{Host, TakeFault};
use mpt_journal::{Journal, OutOfMemory, Stamped};
use mpt_trace::{
    Address, Ask, CommandForm, Down, Entry, HostState, Input, Item, LaneName, Party, Refusal,
    RefusedCall, Tell, Up, command_of,
};
use removal::{FIRST_HANDLE, LAST_HANDLE, Phase};
use std::alloc::Global;
use std::marker::Model;
use std::sync::Wait;

/// A host, each case of which is recorded in its journal under a stamp of its own. A contract sees it as the record
/// of the host's rules, with its journal and its clock.
///
/// After OutOfMemory the case for which memory was wanting may be recorded in part, or not at all.
#[derive(Drop)]
pub(crate) struct RecordedHost {
    alloc: Global,
    host: Host,
    journal: Journal,
    clock: u64,
}

impl Model for RecordedHost {
    ghost use Rattle.std.specs.Prelude.{◌≡◌, []};
    ghost use Rattle.std.specs.Coded.{codes};
    ghost use Rattle.std.specs.FinMap as map;
    ghost use Rattle.mpt_rules.specs.Host.Parts.{Host};
    ghost use Rattle.mpt_live.specs.Recorded.{Recorded};

    ghost Value = { Recorded Host };

    ghost coded = { Prim.hlevel (codes, map.code) };

    ghost view = { λ r. record { part = r.host.host; row = r.journal.row; clock = r.clock } };

    ghost invariant = { λ r. r.host.told ≡ [] };
}

impl RecordedHost {
    /// The host, which has nothing left to tell, with an empty journal and its clock at 0.
    pub(crate) fn new(alloc: Global, host: Host) -> RecordedHost
        requires { host.told ≡ [] }
        ensures { result ≡ record { part = host.host; row = record { party = Party.Host; moments = [] }; clock = 0 } }
    {
        RecordedHost {
            alloc,
            host,
            journal: Journal::new(alloc, Party::Host),
            clock: 0,
        }
    }

    /// The clock.
    pub(crate) fn clock(&self) -> u64
        ensures { result ≡ self.now.clock }
    {
        self.clock
    }

    /// How far the host has brought the controller up.
    pub(crate) fn state(&self) -> HostState
        ensures { result ≡ self.now.part.mode }
    {
        self.host.state()
    }

    /// Whether the host waits for anything.
    pub(crate) fn waits(&self) -> bool
        ensures { result ≡ host_waits self.now.part }
    {
        self.host.waits()
    }

    /// Whether a page of a disk is being read, or is to be.
    pub(crate) fn reads_pages(&self) -> bool {
        for handle in FIRST_HANDLE..=LAST_HANDLE {
            if matches!(self.host.phase(handle), Phase::WaitRead | Phase::Reading(_)) {
                return true;
            }
        }
        false
    }

    /// How many reply queues there are.
    pub(crate) fn queues(&self) -> u8
        ensures { result ≡ length self.now.part.indices }
    {
        self.host.queues()
    }

    /// Whether there is an item for the controller to put.
    pub(crate) fn has_down(&self) -> bool {
        self.host.front_down().is_some()
    }

    /// What was recorded so far, oldest first.
    pub(crate) fn recorded(&self) -> &[Stamped] {
        self.journal.as_slice()
    }

    /// The host and its journal.
    pub(crate) fn into_parts(self) -> (Host, Journal)
        ensures part { result.0.host ≡ self.part }
        ensures row { result.1.row ≡ self.row }
    {
        (self.host, self.journal)
    }

    /// Takes an item of the lane up of a reply queue. A strange one is dropped.
    pub(crate) fn take_up(&mut self, queue: u8, sent: Sent<Up>) -> Result<(), OutOfMemory>
        requires clock { self.old.clock < 2 ^ 61 }
        requires queue { queue < length self.old.part.indices }
        ensures { OnOk result (self.new ≡ after_case host_does self.old (record { stamp = stamp_after self.old sent.stamp; value = HostCase.Takes queue sent.item })) }
    {
        let stamp = self.clock.max(sent.stamp) + 1;
        let item = sent.item.copy(self.alloc)?;
        match self.host.take_up_on(queue, sent.item) {
            Ok(()) | Err(TakeFault::Strange { .. }) => {}
            Err(TakeFault::NoRoom { .. }) => return Err(OutOfMemory),
        }
        self.clock = stamp;
        let entry = Entry::Take {
            lane: up_lane(queue),
            item: Item::Up(item),
        };
        record_all(&mut self.host, &mut self.journal, stamp, entry)
    }

    /// Takes an item of the lane ask of a submitter.
    pub(crate) fn take_ask(&mut self, submitter: u8, sent: Sent<Ask>) -> Result<(), OutOfMemory>
        requires { self.old.clock < 2 ^ 61 }
        ensures { OnOk result (self.new ≡ after_case host_does self.old (record { stamp = stamp_after self.old sent.stamp; value = HostCase.TakesAsk submitter sent.item })) }
    {
        let stamp = self.clock.max(sent.stamp) + 1;
        self.clock = stamp;
        let entry = Entry::Take {
            lane: LaneName::Ask(submitter),
            item: Item::Ask(sent.item),
        };
        self.journal.push(stamp, entry)
    }

    /// Puts an item on the lane tell of a submitter. False where the lane is full.
    pub(crate) fn put_tell<R: Wait>(
        &mut self,
        rt: &R,
        submitter: u8,
        tell: &Tell,
        lane: &mut Giving<'_, Tell>,
    ) -> Result<bool, OutOfMemory>
        requires { self.old.clock < 2 ^ 61 }
        ensures made { IfOk result (λ put. Made host_does (HostCase.PutsTell submitter tell.now) self.old put self.new) }
        ensures given { IfOk result (λ put. WasGiven (Some tell.now) lane.old (next_stamp self.old) put lane.new) }
    {
        let given = tell.copy(self.alloc)?;
        let kept = tell.copy(self.alloc)?;
        self.journal.reserve(1)?;
        let stamp = self.clock + 1;
        if lane.give(rt, stamp, given).is_err() {
            return Ok(false);
        }
        self.clock = stamp;
        let entry = Entry::Put {
            lane: LaneName::Tell(submitter),
            item: Item::Tell(kept),
        };
        self.journal.push(stamp, entry)?;
        Ok(true)
    }

    /// Puts the next item for the controller. False where there is none or the lane is full.
    pub(crate) fn put_down<R: Wait>(
        &mut self,
        rt: &R,
        lane: &mut Giving<'_, Down>,
    ) -> Result<bool, OutOfMemory>
        requires { self.old.clock < 2 ^ 61 }
        ensures made { IfOk result (λ put. Made host_does HostCase.Puts self.old put self.new) }
        ensures given { IfOk result (λ put. WasGiven (slice_get self.old.part.out 0) lane.old (next_stamp self.old) put lane.new) }
    {
        let Some(next) = self.host.front_down() else {
            return Ok(false);
        };
        let item = next.copy(self.alloc)?;
        self.journal.reserve(1)?;
        let stamp = self.clock + 1;
        if lane.give(rt, stamp, item).is_err() {
            return Ok(false);
        }
        let down = self.host.sent_down();
        self.clock = stamp;
        let entry = Entry::Put {
            lane: LaneName::Down,
            item: Item::Down(down),
        };
        self.journal.push(stamp, entry)?;
        Ok(true)
    }

    /// Begins a read of the Doorbell. False where the host isn't up or waits for something.
    pub(crate) fn look(&mut self) -> Result<bool, OutOfMemory>
        requires { self.old.clock < 2 ^ 61 }
        ensures { IfOk result (λ looked. Made host_does HostCase.Looks self.old looked self.new) }
    {
        if !self.is_free() {
            return Ok(false);
        }
        self.host.look()?;
        self.clock += 1;
        Ok(true)
    }

    /// Puts the last item of a session into the outbox. False where the host isn't up or waits for something.
    pub(crate) fn stop(&mut self) -> Result<bool, OutOfMemory>
        requires { self.old.clock < 2 ^ 61 }
        ensures { IfOk result (λ stopped. Made host_does HostCase.Stops self.old stopped self.new) }
    {
        if !self.is_free() {
            return Ok(false);
        }
        self.host.stop()?;
        self.clock += 1;
        Ok(true)
    }

    // Whether the host is up and waits for nothing.
    fn is_free(&self) -> bool
        ensures { result ≡ is_free self.now.part }
    {
        matches!(self.host.state(), HostState::Up) && !self.host.waits()
    }

    /// Does what is asked from outside. A plug or an unplug does nothing.
    pub(crate) fn input(&mut self, line: Input) -> Result<(), OutOfMemory>
        requires { self.old.clock < 2 ^ 61 }
        ensures { OnOk result (self.new ≡ after_case host_does self.old (record { stamp = next_stamp self.old; value = HostCase.Told line })) }
    {
        match line {
            Input::Start => self.start(),
            Input::Submit { n, address, form } => self.submit(n, address, form),
            Input::Abort { n } => self.abort(n),
            Input::TargetReset { address } => self.target_reset(address),
            Input::Reset => self.reset(),
            Input::UnitReset => self.unit_reset(),
            Input::Plug { .. } | Input::Unplug { .. } => {
                self.clock += 1;
                Ok(())
            }
        }
    }

    fn start(&mut self) -> Result<(), OutOfMemory>
        requires { self.old.clock < 2 ^ 61 }
        ensures { OnOk result (self.new ≡ after_case host_does self.old (record { stamp = next_stamp self.old; value = HostCase.Told Input.Start })) }
    {
        let refused = match self.host.start() {
            Ok(()) => None,
            Err(fault) => Some(refused(RefusedCall::Start, host_refusal(fault)?)),
        };
        self.clock += 1;
        record_input(
            &mut self.host,
            &mut self.journal,
            self.clock,
            Input::Start,
            refused,
        )
    }

    fn submit(&mut self, n: u32, address: Address, form: CommandForm) -> Result<(), OutOfMemory>
        requires { self.old.clock < 2 ^ 61 }
        ensures { OnOk result (self.new ≡ after_case host_does self.old (record { stamp = next_stamp self.old; value = HostCase.Told (Input.Submit n address form) })) }
    {
        let refused = ask_submit(self.alloc, &mut self.host, n, address, &form)?;
        self.clock += 1;
        let line = Input::Submit { n, address, form };
        record_input(&mut self.host, &mut self.journal, self.clock, line, refused)
    }

    fn abort(&mut self, n: u32) -> Result<(), OutOfMemory>
        requires { self.old.clock < 2 ^ 61 }
        ensures { OnOk result (self.new ≡ after_case host_does self.old (record { stamp = next_stamp self.old; value = HostCase.Told (Input.Abort n) })) }
    {
        let refused = ask_abort(&mut self.host, n)?;
        self.clock += 1;
        record_input(
            &mut self.host,
            &mut self.journal,
            self.clock,
            Input::Abort { n },
            refused,
        )
    }

    fn target_reset(&mut self, address: Address) -> Result<(), OutOfMemory>
        requires { self.old.clock < 2 ^ 61 }
        ensures { OnOk result (self.new ≡ after_case host_does self.old (record { stamp = next_stamp self.old; value = HostCase.Told (Input.TargetReset address) })) }
    {
        let refused = ask_target_reset(&mut self.host, address)?;
        self.clock += 1;
        let line = Input::TargetReset { address };
        record_input(&mut self.host, &mut self.journal, self.clock, line, refused)
    }

    fn reset(&mut self) -> Result<(), OutOfMemory>
        requires { self.old.clock < 2 ^ 61 }
        ensures { OnOk result (self.new ≡ after_case host_does self.old (record { stamp = next_stamp self.old; value = HostCase.Told Input.Reset })) }
    {
        let refused = match self.host.diag_reset() {
            Ok(()) => None,
            Err(fault) => Some(refused(RefusedCall::Reset, host_refusal(fault)?)),
        };
        self.clock += 1;
        record_input(
            &mut self.host,
            &mut self.journal,
            self.clock,
            Input::Reset,
            refused,
        )
    }

    fn unit_reset(&mut self) -> Result<(), OutOfMemory>
        requires { self.old.clock < 2 ^ 61 }
        ensures { OnOk result (self.new ≡ after_case host_does self.old (record { stamp = next_stamp self.old; value = HostCase.Told Input.UnitReset })) }
    {
        let refused = match self.host.unit_reset() {
            Ok(()) => None,
            Err(fault) => Some(refused(RefusedCall::UnitReset, host_refusal(fault)?)),
        };
        self.clock += 1;
        record_input(
            &mut self.host,
            &mut self.journal,
            self.clock,
            Input::UnitReset,
            refused,
        )
    }
}

// Submits a command. The entry of the refusal, if it is refused.
#[tactic(auto, using(crate::proofs::Granted::submit_granted, crate::proofs::Granted::submit_refused, crate::proofs::Granted::submit_stays))]
fn ask_submit(
    alloc: Global,
    host: &mut Host,
    n: u32,
    address: Address,
    form: &CommandForm,
) -> Result<Option<Entry>, OutOfMemory>
    requires { host.old.told ≡ [] }
    ensures host { OnOk result (host.new.host ≡ (host_told host.old.host (Input.Submit n address form.now)).part) }
    ensures entries { IfOk result (λ refused. Entry.Given (Input.Submit n address form.now) ∷ option_to_list refused ++ host.new.told ≡ (host_told host.old.host (Input.Submit n address form.now)).entries) }
    ensures told { OnErr result (host.new.told ≡ []) }
{
    let command = command_of(alloc, form)?;
    match host.submit(n, address, command) {
        Ok(_) => Ok(None),
        Err(fault) => {
            let cause = host_refusal(fault)?;
            Ok(Some(Entry::RefuseSubmit { n, cause }))
        }
    }
}

// Asks for an abort. The entry of the refusal, if it is refused.
#[tactic(auto, using(crate::proofs::Granted::abort_granted, crate::proofs::Granted::abort_refused, crate::proofs::Granted::abort_stays))]
fn ask_abort(host: &mut Host, n: u32) -> Result<Option<Entry>, OutOfMemory>
    requires { host.old.told ≡ [] }
    ensures host { OnOk result (host.new.host ≡ (host_told host.old.host (Input.Abort n)).part) }
    ensures entries { IfOk result (λ refused. Entry.Given (Input.Abort n) ∷ option_to_list refused ++ host.new.told ≡ (host_told host.old.host (Input.Abort n)).entries) }
    ensures told { OnErr result (host.new.told ≡ []) }
{
    match host.abort(n) {
        Ok(_) => Ok(None),
        Err(fault) => Ok(Some(refused(RefusedCall::Abort(n), host_refusal(fault)?))),
    }
}

// Asks for a target reset. The entry of the refusal, if it is refused.
#[tactic(auto, using(crate::proofs::Granted::target_granted, crate::proofs::Granted::target_refused, crate::proofs::Granted::target_stays))]
fn ask_target_reset(host: &mut Host, address: Address) -> Result<Option<Entry>, OutOfMemory>
    requires { host.old.told ≡ [] }
    ensures host { OnOk result (host.new.host ≡ (host_told host.old.host (Input.TargetReset address)).part) }
    ensures entries { IfOk result (λ refused. Entry.Given (Input.TargetReset address) ∷ option_to_list refused ++ host.new.told ≡ (host_told host.old.host (Input.TargetReset address)).entries) }
    ensures told { OnErr result (host.new.told ≡ []) }
{
    match host.target_reset(address) {
        Ok(_) => Ok(None),
        Err(fault) => {
            let cause = host_refusal(fault)?;
            Ok(Some(refused(RefusedCall::TargetReset(address), cause)))
        }
    }
}

// The entry of a refused call.
fn refused(call: RefusedCall, cause: Refusal) -> Entry
    ensures { result ≡ Entry.Refuse call cause }
{
    Entry::Refuse { call, cause }
}

// Records an input, then the refusal of the call for it if it was refused, and then all that the host tells, each with
// the stamp. Where memory is wanting, what isn't recorded yet is lost.
fn record_input(
    host: &mut Host,
    journal: &mut Journal,
    stamp: u64,
    line: Input,
    refused: Option<Entry>,
) -> Result<(), OutOfMemory>
    ensures recorded { OnOk result (journal.new.row ≡ stamped_with journal.old.row stamp (Entry.Given line ∷ option_to_list refused ++ host.old.told)) }
    ensures told { host.new.told ≡ [] }
    ensures host { host.new.host ≡ host.old.host }
{
    let given = journal.push(stamp, Entry::Given(line));
    let others = match refused {
        None => record_told(host, journal, stamp),
        Some(entry) => record_all(host, journal, stamp, entry),
    };
    given.and(others)
}

// Records an entry and then all that the host tells, each with the stamp. Where memory is wanting, what isn't recorded
// yet is lost.
fn record_all(
    host: &mut Host,
    journal: &mut Journal,
    stamp: u64,
    entry: Entry,
) -> Result<(), OutOfMemory>
    ensures recorded { OnOk result (journal.new.row ≡ stamped_with journal.old.row stamp (entry ∷ host.old.told)) }
    ensures told { host.new.told ≡ [] }
    ensures host { host.new.host ≡ host.old.host }
{
    let first = journal.push(stamp, entry);
    let others = record_told(host, journal, stamp);
    first.and(others)
}

// Records all that the host tells, each entry with the stamp. Where memory is wanting, the rest of it is lost.
fn record_told(host: &mut Host, journal: &mut Journal, stamp: u64) -> Result<(), OutOfMemory>
    ensures recorded { OnOk result (journal.new.row ≡ stamped_with journal.old.row stamp host.old.told) }
    ensures told { host.new.told ≡ [] }
    ensures host { host.new.host ≡ host.old.host }
{
    let mut recorded = Ok(());
    while let Some(entry) = host.answers() {
        if recorded.is_ok() {
            recorded = journal.push(stamp, entry);
        }
    }
    recorded
}
